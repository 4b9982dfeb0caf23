// Runs of a session in plain code.
//
// Model: machine and host are a `Hosting` of plain_host; `Rests` of plain_turns says for which state of the source they stand.
// Promise: a run of so many steps leaves them standing for what the source has after as many, while a sink takes just what the source prints; and they
// get there by instructions and services alone, just as many of each as it answers. So does one that goes on until the youngest activation is gone. A
// spawn leaves them standing for what the source's command comes to.
#![tactic(auto)]

mod finishing;
mod handing;
mod language;
mod running;
mod spawning;
mod strings;
mod turning;

pub use finishing::finish;
pub use language::Language;
pub use running::{Counts, RunErr, run};
pub use spawning::{Birth, spawn};
