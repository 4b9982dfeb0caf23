// Sends in plain code against the source: a message that data answers.
//
// Model: `IsSent` (specs/Sends.antt) says how a node that sends asks for service 1, with which values and words. `data_answers` of plain_runs
// is what the service does to machine and host where data answers. `IsMessaged` (specs/Messages.antt) says of a machine at the trap of a node that it has
// a message, whether the node's words put it there or the host.
// Promise: laws alone, for messages to a stated receiver and to the activation's own, resends and directed resends of at most 5 arguments; and
// that what a lookup over words finds, where it is data, is the answer (`data_word` of specs/Found.antt).
#![tactic(auto)]

mod laws;

pub use laws::{data_answers_sends, lookups_answer, sends_message};
