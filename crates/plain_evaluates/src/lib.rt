// Messages in plain code against the source: one that a method or a block's own method meets, with a context and without.
//
// Model: `IsMessaged` (specs/Messages.antt of plain_sends) says of a machine at the trap of a node that it has a message, whether the node's words put
// it there or the host. `calls` (specs/Services.antt of plain_runs) is what service 1 does to machine and host where a method answers: the machine stands at
// the first word of the method's unit. `DoesStep` (specs/Steps.antt of plain_steps) says that words do the source's step.
// Promise: laws alone.
#![tactic(auto)]

mod laws;

pub use laws::{blocks_are_entered, entries_are_refused, marks_decide, methods_are_entered};
