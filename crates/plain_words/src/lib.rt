// The words of plain code.
//
// Model: the words of a node and of the entry of a body (specs/Code.antt), those of a body, which are its unit, and what each of them says of
// the frame (specs/Units.antt).
// Promise: `unit_of` gives exactly these for every body of `CanTranslate`, and `put_code` puts them into memory and nothing else. Laws: what
// the words of each node do, that they are instructions of the table, and how many they are.
#![tactic(auto)]

mod bounds;
mod emitting;
mod instructions;
mod laws;
mod nodes;
mod references;
mod translator;
mod units;

pub use bounds::{frames_are_small, units_are_instructions, units_are_short};
pub use emitting::put_code;
pub use references::References;
pub use translator::{entry_words_of, frame_locals_of, frame_words_of, owns_context, unit_of};
pub use units::{Point, Unit};
