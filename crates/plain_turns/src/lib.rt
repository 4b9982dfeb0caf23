// Runs of plain code by turns: from one trap to the next.
//
// Model: `Rests` (specs/Resting.antt) says that machine and host stand for a state between commands, `IsAtTrap` that a run has come to a trap.
// `Reaches` (specs/Events.antt) says that machine and host were reached by instructions and services alone.
// Promise: laws alone (specs/Turns.antt, specs/Primitives.antt, specs/Handlers.antt). A run begins and comes to a trap; each service leads on to the next trap, or ends the run, and machine and
// host then stand for the state that the source reaches.
#![tactic(auto)]

mod laws;

pub use laws::{
    handlers_turn, messages_turn, methods_turn, primitives_turn, returns_turn, runs_begin,
    runs_come, runs_end,
};
