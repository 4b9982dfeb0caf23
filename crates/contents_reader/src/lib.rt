// What a sign does in the contents of a slot, and in the slots of a block.
//
// Model: `specs/ContentTurns.antt` and `specs/LocalTurns.antt` say what a sign does there, as functions on lists of frames.
// Promise: each function gives exactly that turn, refuses the sign where there is none, or wants memory.
#![tactic(auto)]

mod contents;
mod locals;

pub use contents::{
    take_contents, take_data, take_data_opened, take_data_shut, take_opened, take_shut,
};
pub use locals::{at_local, local_arrow, local_done, local_equals, local_named};
