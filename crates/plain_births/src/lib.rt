// Activities that are born while a session rests.
//
// Model: `Rests` of plain_turns says that machine and host stand for a state between commands, and `command` of source_model what the source makes of
// a command.
// Promise: laws alone (specs/Births.antt). What the host's lookup from the lobby finds tells what the command `spawn` does; the method's unit may be put;
// and machine and host, with the activity begun, rest for the state that the command gives.
#![tactic(auto)]

mod laws;

pub use laws::{births_meet, births_rest, units_rest};
