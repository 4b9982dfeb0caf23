// The text of a session: the script that it reads, and the lines that it writes.
//
// Model: a script is a list of bytes, cut at newlines into lines and a line at spaces into words. `specs/Words.antt` says
// what blanks, names and numbers are, `specs/Commands.antt` which command the words of a line are, and `specs/Scripts.antt`
// which commands a text is, or which of its lines is none. `specs/Telling.antt` tells each command in the source's words.
// `specs/LineTexts.antt` says which bytes a line has.
// Promise: `read_script` gives exactly those commands or that line, or wants memory. `Line::put` puts exactly the bytes of
// the line that is asked for, and takes no memory.
#![tactic(auto)]

mod acts;
mod commands;
mod laws;
mod lines;
mod reading;
mod rooms;
mod scripts;
mod words;

pub use acts::{Shown, ShownAct, ValueList};
pub use commands::{Command, PathText, Script};
pub use laws::{commands_are_told_apart, frames_are_shown, values_are_shown};
pub use lines::{Line, LineText, ShownValue};
pub use rooms::{activation_has_room, frames_have_room};
pub use scripts::{ScriptErr, read_script};

#[cfg(test)]
mod tests;
