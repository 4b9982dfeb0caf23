// Values, of a text and of a running program, and the numbers of bodies and maps.

use crate::names::Name;

/// The number of a method's or block's body, from 1 in the order of opening tokens.
#[derive(Clone, Copy, PartialEq, Eq, Debug)]
pub struct BodyId(pub u32);

/// The number of a map. `MapId(0)` is that of the integers.
#[derive(Clone, Copy, PartialEq, Eq, Debug)]
pub struct MapId(pub u32);

/// A lookup's look at a map for a name.
#[derive(Clone, Copy, PartialEq, Eq, Debug)]
pub struct Dep {
    pub map: MapId,
    pub name: Name,
}

/// An integer within 30 bits, an object by its number, or a block: its body and the activation that made it.
#[derive(Clone, Copy, PartialEq, Eq, Debug)]
pub enum Value {
    Int(i32),
    Object(u32),
    Block { body: BodyId, maker: u64 },
}

/// A value of a slot or of a local as a text says it: an integer, an object by its number, or the core object nil, whose
/// number is told by the whole text.
#[derive(Clone, Copy, PartialEq, Eq, Debug)]
pub enum Datum {
    Integer(i32),
    Object(u32),
    Nil,
}
