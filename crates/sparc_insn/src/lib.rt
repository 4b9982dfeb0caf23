//! Words of SPARC V8 instructions: the subset that the compiler emits and the machine runs.
//!
//! An instruction is an `Insn`, a word a `u32`. `specs/Words.antt` has the table: `word_of` is the word
//! of an instruction, `IsInsn` says which fields it may have. `encode` gives that word. `decode` gives
//! the instruction of a word, and `None` exactly for the words that no instruction has.
#![tactic(auto)]

mod decoding;
mod encoding;
mod insn;
mod laws;
mod operations;
mod reading;
#[cfg(test)]
mod tests;

pub use decoding::decode;
pub use encoding::encode;
pub use insn::{Insn, Op3, Operand};
pub use laws::{decodes, encodes, one_word};
pub use reading::read;
