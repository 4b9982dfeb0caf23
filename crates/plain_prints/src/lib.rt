// The lines that primitives print.
//
// Model: what a primitive prints is `printed_by` of plain_prims of what it comes to; `Says` of plain_turns is that, told by the words of the receiver.
// Promise: `print` writes that line to a sink, and nothing where nothing is printed; after a failure a front of it went out.
#![tactic(auto)]

mod pieces;
mod printing;

pub use printing::{PrintErr, print};
