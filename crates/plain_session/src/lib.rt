// A session in plain code: the commands of a script over a world that was opened.
//
// Model: `Session` (specs/Sessions.antt) holds machine and host; `Shows` says for which state of the source it stands. What a command comes to is
// the source's command (`obeyed` of specs/Commands.antt).
// Promise: a command leaves the session showing what the source's command comes to; a sink takes what it writes, but for a last line that is given. Of
// a command that breaks off the sink took a front of what it writes.
#![tactic(auto)]

mod commands;
mod finishing;
mod sessions;
mod stacks;

pub use commands::{all_built, is_built};
pub use sessions::Session;
