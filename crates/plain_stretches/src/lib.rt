// How plain code goes on from a poll to the next trap.
//
// Model: `IsOn` (specs/Standing.antt) says that a sound host, whose machine is at a node's poll, stands for a state of the source. `Stretch`
// (specs/Stretches.antt) says how words go on from there: they do so many of the source's steps, and come to a trap, for one of seven reasons.
// Promise: laws alone. There is a stretch from each poll, and from behind a service whose words do a step; the machine's run comes to its trap
// (specs/Runs.antt); service 2, with a new goal, leads to the same poll, and an activity that has ended stays so once its counts are settled.
#![tactic(auto)]

mod laws;

pub use laws::{
    ends_settle, goes_to_traps, polls_come_again, polls_tell, runs_join, words_stretch,
};
