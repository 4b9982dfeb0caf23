// The commands of a text.
ghost use Rattle.std.specs.Prelude.{◌≡◌, ◌≤◌, ◌<◌, ◌+◌, ℕ, length, take, drop, true, false, Some, None, MatchOption, IfOk, IfErr, Ok};
ghost use Rattle.session_text.specs.Scripts.{IsRefusal, commands_of, edit_text, is_end, lines, script};
ghost use Rattle.session_text.specs.Edits.{IsEditEnd};

use crate::commands::{Command, Script, bytes_of};
use crate::reading::{Meaning, line_meaning};
use crate::words::{part_len, trimmed};
use self_terms::OutOfMemory;
use std::alloc::Global;
use thiserror::Error;

/// Why a script isn't read: the number of the first line that is no command, from 1; or want of memory.
#[derive(Clone, Copy, Debug, PartialEq, Eq, Error)]
pub enum ScriptErr {
    #[error("line {0} is no command")]
    BadCommand(u32),
    #[error("out of memory")]
    OutOfMemory,
}

impl From<OutOfMemory> for ScriptErr {
    ghost use Rattle.std.specs.Prelude.{◌≡◌};
    ghost use Rattle.session_text.specs.declared.scripts.ScriptErr.TheVariants.{OutOfMemory};

    ghost from_gives = { λ _ e. e ≡ OutOfMemory };

    fn from(_: OutOfMemory) -> ScriptErr {
        ScriptErr::OutOfMemory
    }
}

/// Where an edit ends: how many bytes its text has, how many lines it has with the one that ends it, and how many bytes
/// these have.
#[derive(Clone, Copy)]
struct EditEnd {
    text: usize,
    lines: u32,
    behind: usize,
}

// Whether a line ends an edit.
fn is_end(line: &[u8]) -> bool
    ensures { result ≡ is_end line.now }
{
    trimmed(line) == "end".as_bytes()
}

// Where an edit ends, of which this text stands behind the first line; none where no line ends it.
fn edit_end(rest: &[u8]) -> Option<EditEnd>
    requires { length rest.now ≤ 1048576 }
    ensures { MatchOption result (edit_text (lines rest.now) ≡ None) (λ e. IsEditEnd rest.now e) }
{
    let mut at = 0;
    let mut passed: u32 = 0;
    while at < rest.len() {
        let len = part_len(b'\n', &rest[at..]);
        let next = (at + len + 1).min(rest.len());
        passed += 1;
        if is_end(&rest[at..at + len]) {
            return Some(EditEnd {
                text: at,
                lines: passed,
                behind: next,
            });
        }
        at = next;
    }
    None
}

/// The commands of a script, all of them read before one is run; or the number of the first line that is no command, or
/// that begins an edit which no line ends.
pub fn read_script(alloc: Global, bytes: &[u8]) -> Result<Script, ScriptErr>
    requires { length bytes.now ≤ 1048576 }
    ensures found { IfOk result (λ s. script bytes.now ≡ Ok s) }
    ensures refused { IfErr result (IsRefusal (script bytes.now)) }
{
    let mut script = Script::open(alloc);
    let mut at = 0;
    let mut number: u32 = 1;
    while at < bytes.len() {
        let len = part_len(b'\n', &bytes[at..]);
        let next = (at + len + 1).min(bytes.len());
        match line_meaning(alloc, trimmed(&bytes[at..at + len]))? {
            Meaning::Idle => {
                at = next;
                number += 1;
                continue;
            }
            Meaning::Does(command) => {
                script.push(command)?;
                at = next;
                number += 1;
                continue;
            }
            Meaning::Opens(path) => {
                let behind = &bytes[next..];
                let Some(end) = edit_end(behind) else {
                    return Err(ScriptErr::BadCommand(number));
                };
                let text = bytes_of(alloc, &behind[..end.text])?;
                script.push(Command::Edit { path, text })?;
                at = next + end.behind;
                number += 1 + end.lines;
                continue;
            }
            Meaning::NoCommand => return Err(ScriptErr::BadCommand(number)),
        }
    }
    Ok(script)
}
