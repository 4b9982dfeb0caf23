// Objects of the source, as code has them.
ghost use Rattle.std.specs.Prelude.{◌≡◌, [], length, map, option_map, slice_get, Some};
ghost use Rattle.source_model.specs.Slots.{AreNamedOnce, slot_named};

use self_terms::{BodyId, Row, Value};
use std::marker::Model;

/// What a slot holds: constant data; assignable data; the assignment slot of the assignable slot in front of it; a parent,
/// which is an object by its number; a method by its body.
#[derive(Clone, Copy)]
pub enum Content {
    Constant(Value),
    Assignable(Value),
    Assignment,
    Parent(u32),
    Method(BodyId),
}

/// A slot: the number of its name, and what it holds.
#[derive(Clone, Copy)]
pub struct Slot {
    pub name: u32,
    pub content: Content,
}

/// The slots of an object in order, each name once.
#[derive(Drop)]
pub struct Slots {
    slots: Vec<Slot>,
}

impl Model for Slots {
    ghost use Rattle.std.specs.Prelude.{List};
    ghost use Rattle.source_model.specs.declared.objects.Slot.{Slot};
    ghost use Rattle.source_model.specs.Slots.{AreNamedOnce};

    ghost Value = { List Slot };

    ghost view = { λ s. s.slots.items };

    ghost invariant = { λ s. AreNamedOnce s.slots.items };
}

impl Slots {
    /// The slots of a list in which each name stands once.
    pub fn of(slots: Vec<Slot>) -> Slots
        requires { AreNamedOnce slots.items }
        ensures { result ≡ slots.items }
    {
        Slots { slots }
    }

    /// How many slots there are.
    pub fn len(&self) -> usize
        ensures { result ≡ length self.now }
    {
        self.slots.len()
    }

    /// The slot at a number from 0; none past the last.
    pub fn slot_at(&self, at: usize) -> Option<Slot>
        ensures { result ≡ slice_get self.now at }
    {
        self.slots.get(at).copied()
    }

    /// A law: in front of a slot stands none of its name.
    pub fn have_each_once(&self)
        ensures { AreNamedOnce self.now }
    {
        let _count = self.slots.len();
    }

    /// The slot of a name.
    pub fn named(&self, name: u32) -> Option<Slot>
        ensures { result ≡ slot_named name self.now }
    {
        for slot in self.slots.as_slice() {
            if slot.name == name {
                return Some(*slot);
            }
        }
        None
    }
}

/// The bytes of a string.
#[derive(Drop)]
pub struct Bytes {
    bytes: Vec<u8>,
}

impl Model for Bytes {
    ghost use Rattle.std.specs.Prelude.{List, ℕ};

    ghost Value = { List ℕ };

    ghost view = { λ b. b.bytes.items };
}

impl Bytes {
    /// The bytes of a list.
    pub fn of(bytes: Vec<u8>) -> Bytes
        ensures { result ≡ bytes.items }
    {
        Bytes { bytes }
    }

    /// The bytes in their order.
    pub fn as_slice(&self) -> &[u8]
        ensures { result.now ≡ self.now }
    {
        self.bytes.as_slice()
    }
}

/// An object of slots, a vector of values, or a string of bytes.
#[derive(Drop)]
pub enum Thing {
    Plain(Slots),
    Vector(Row<Value>),
    Text(Bytes),
}

/// The objects that the language itself knows, by their numbers: `nil`, `true`, `false`, and the traits of integers, strings,
/// vectors and blocks.
#[derive(Clone, Copy)]
pub struct Core {
    pub nil: u32,
    pub yes: u32,
    pub no: u32,
    pub integers: u32,
    pub strings: u32,
    pub vectors: u32,
    pub blocks: u32,
}
