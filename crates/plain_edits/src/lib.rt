// What an accepted edit does to machine and host while a session rests.
//
// Model: `with_method` of source_model says what an edit of a method's slot does to a state, and `Rests` of plain_turns that machine and host stand for a
// state between commands.
// Promise: laws alone (specs/Heaps.antt, specs/Resting.antt). Where the words of new strings, the new map of the object and those of new blocks are put,
// the heap stands for the objects of the state that the source's command comes to; machine and host stand for that state, and the session rests again,
// where there is room.
#![tactic(auto)]

mod laws;

pub use laws::{
    edits_are_written, edits_come, edits_rest, edits_stand, heaps_follow_edits, objects_in_order,
    sessions_know_blocks,
};
