// Activities that are switched while a session rests.
//
// Model: `switches` (specs/Switching.antt) is what the host does to make another activity the current one; `Rests` of plain_turns says that machine and
// host stand for a state between commands.
// Promise: laws alone (specs/Resting.antt). The session rests again, for the state with that current activity, and counts and shows what it did.
#![tactic(auto)]

mod laws;

pub use laws::{activities_come_up, switches_rest, switches_stand};
