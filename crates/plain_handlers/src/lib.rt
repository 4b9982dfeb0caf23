// Primitives that fail and have a handler, in plain code: the host sends the handler a message, in the same step.
//
// Model: `IsMessaged` (specs/Messages.antt of plain_sends) says of a machine at the trap of a node that it has a message, whether the node's words put it there or the host;
// `IsHandled` (specs/Handling.antt) that the message of a failure is one, once the host has put it in place of the primitive's (`hands_over`).
// Promise: laws alone, for each thing that a message meets but methods, which plain_served has.
#![tactic(auto)]

mod laws;

pub use laws::{failures_are_handled, messages_are_answered, messages_fail};
