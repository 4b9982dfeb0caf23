// Plain code under its host: what machine and host show of a running program, and how that goes on.
//
// Model: `Host` is a machine with what its host keeps beside it; `raw_of` is the raw state that both show, read off the words of frames and
// heap by what each word of a unit says of its frame (specs/Host.antt); `IsHosted`, `RunsAt` are what holds wherever plain code runs.
// Promise: laws alone. The words of a node that pends a word, drops a value or answers a caller lead from the poll of a node to that of the
// next, and what machine and host show is then the next raw state.
#![tactic(auto)]

mod laws;
mod status;

pub use laws::nodes_go_on;
pub use status::Status;
