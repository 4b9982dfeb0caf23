// The tokens of a text in the Self subset: bytes in, a list of tokens with their places out.
//
// Model: a text is a list of bytes. `specs/Classes.antt` says which bytes are of one class, `specs/Forms.antt` which
// token, blank or fault begins a text, `specs/Tokens.antt` what the tokens of a text are and where they stand, and
// `specs/Texts.antt` what the bytes of a token stand for.
// Promise: `scan` gives exactly those tokens, whatever the bytes, or wants memory. The last token is the end of the
// text, or the first fault, behind which nothing is read.
#![tactic(auto)]

mod classes;
mod forms;
mod scanning;
mod symbols;
mod texts;

pub use scanning::scan;
pub use symbols::{Fault, Kind, OutOfMemory, Token, TokenList};
pub use texts::{text_of, unescape};

#[cfg(test)]
mod tests;
