// The slots of an object.
ghost use Rattle.std.specs.Prelude.{◌≡◌, [], ℕ, length, slice_get, take, OnOk, Some, None};
ghost use Rattle.world_build.specs.Slots.{slot_of, add_slot, data_in};

use indexmap::IndexMap;
use self_terms::Datum;
use std::alloc::{AllocError, Global};
use std::marker::Model;

/// What a slot holds: constant data, assignable data, the assignment slot of assignable data, a parent, a method's body by
/// its number.
#[derive(Clone, Copy, Debug, PartialEq, Eq)]
pub enum ToldContent {
    Constant(Datum),
    Assignable(Datum),
    Assignment,
    Parent(Datum),
    Method(u32),
}

/// A slot, by the number of its name.
#[derive(Clone, Copy, Debug, PartialEq, Eq)]
pub struct ToldSlot {
    pub name: u32,
    pub content: ToldContent,
}

/// The slots of an object in order, each name once.
#[derive(Drop)]
pub struct ToldSlots {
    slots: IndexMap<u32, ToldContent>,
}

impl Model for ToldSlots {
    ghost use Rattle.std.specs.Prelude.{List, map};
    ghost use Rattle.world_build.specs.declared.slots.ToldSlot.{ToldSlot};
    ghost use Rattle.world_build.specs.Slots.{slot_in};

    ghost Value = { List ToldSlot };

    ghost view = { λ s. map slot_in s.slots.entries };
}

impl ToldSlots {
    /// No slots. Takes no memory.
    pub(crate) fn open(alloc: Global) -> ToldSlots
        ensures { result ≡ [] }
    {
        ToldSlots {
            slots: IndexMap::new(alloc),
        }
    }

    /// How many slots there are.
    pub fn len(&self) -> usize
        ensures { result ≡ length self.now }
    {
        self.slots.len()
    }

    /// The slot at a number from 0; none past the last.
    pub fn slot_at(&self, at: usize) -> Option<ToldSlot>
        ensures { result ≡ slice_get self.now at }
    {
        let (name, content) = self.slots.get_index(at)?;
        Some(ToldSlot {
            name: *name,
            content: *content,
        })
    }

    /// A law: in front of a slot stands none of its name.
    pub fn have_each_once(&self)
        ensures { (at : ℕ) (s : ToldSlot) → slice_get self.now at ≡ Some s → slot_of s.name (take at self.now) ≡ None }
    {
        let _count = self.slots.len();
    }

    /// What the slot of a name holds.
    pub fn content(&self, name: u32) -> Option<ToldContent>
        ensures { result ≡ slot_of name self.now }
    {
        self.slots.get(&name).copied()
    }

    /// One slot more behind the others, where there is none of its name.
    pub(crate) fn add(&mut self, slot: ToldSlot) -> Result<(), AllocError>
        ensures { OnOk result (self.new ≡ add_slot self.old slot) }
    {
        if self.slots.contains_key(&slot.name) {
            return Ok(());
        }
        let Ok(_) = self.slots.insert(slot.name, slot.content) else {
            return Err(AllocError);
        };
        Ok(())
    }
}

// A path goes through data and parents, not through methods and assignment slots.
pub(crate) fn data_in(content: Option<ToldContent>) -> Option<Datum>
    ensures { result ≡ data_in content }
{
    match content {
        None => None,
        Some(ToldContent::Constant(value)) => Some(value),
        Some(ToldContent::Assignable(value)) => Some(value),
        Some(ToldContent::Assignment) => None,
        Some(ToldContent::Parent(value)) => Some(value),
        Some(ToldContent::Method(_)) => None,
    }
}
