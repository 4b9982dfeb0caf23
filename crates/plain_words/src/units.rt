//! Units, and what each of their words says of its frame.

use sparc_insn::Insn;

/// What a word of a unit says of the frame of an activation that goes on there: its body, the number of the node that is done, and how
/// many values are pending.
#[derive(Clone, Copy, Debug, PartialEq, Eq)]
pub struct Point {
    pub body: u32,
    pub node: u32,
    pub pending: u32,
}

/// The instructions of a body, and a point for each of them.
#[derive(Drop)]
pub struct Unit {
    pub code: Vec<Insn>,
    pub points: Vec<Point>,
}
