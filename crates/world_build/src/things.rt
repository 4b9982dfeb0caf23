// The objects and strings of a text.
ghost use Rattle.std.specs.Prelude.{◌≡◌, ◌++◌, ◌∷◌, [], length, slice_get, OnOk};
ghost use Rattle.world_build.specs.Things.{own_slot, own_data, change_thing, is_string, is_plain};

use crate::slots::{ToldContent, ToldSlot, ToldSlots, data_in};
use self_terms::Datum;
use source_model::Bytes;
use std::alloc::{AllocError, Global};
use std::marker::Model;

/// An object with slots of its own, or a string with its bytes.
#[derive(Drop)]
pub enum ToldThing {
    Plain(ToldSlots),
    Text(Bytes),
}

/// The objects and strings by their numbers from 0.
#[derive(Drop)]
pub struct ToldThings {
    things: Vec<ToldThing>,
}

impl Model for ToldThings {
    ghost use Rattle.std.specs.Prelude.{List};
    ghost use Rattle.world_build.specs.declared.things.ToldThing.{ToldThing};

    ghost Value = { List ToldThing };

    ghost view = { λ t. t.things.items };
}

impl ToldThings {
    /// None. Takes no memory.
    pub(crate) fn open(alloc: Global) -> ToldThings
        ensures { result ≡ [] }
    {
        ToldThings {
            things: Vec::new(alloc),
        }
    }

    pub fn len(&self) -> usize
        ensures { result ≡ length self.now }
    {
        self.things.len()
    }

    /// The objects and strings in the order of their numbers.
    pub fn as_slice(&self) -> &[ToldThing]
        ensures { result.now ≡ self.now }
    {
        self.things.as_slice()
    }

    pub(crate) fn push(&mut self, thing: ToldThing) -> Result<(), AllocError>
        ensures { OnOk result (self.new ≡ self.old ++ thing ∷ []) }
    {
        self.things.push(thing)?;
        Ok(())
    }

    // What the own slot of an object holds.
    pub(crate) fn own_slot(&self, object: u32, name: u32) -> Option<ToldContent>
        ensures { result ≡ own_slot (slice_get self.now object) name }
    {
        match self.things.get(object as usize) {
            None => None,
            Some(ToldThing::Plain(slots)) => slots.content(name),
            Some(ToldThing::Text(_)) => None,
        }
    }

    // The value of the own slot of an object, where it is data or a parent.
    pub(crate) fn own_data(&self, object: u32, name: u32) -> Option<Datum>
        ensures { result ≡ own_data (slice_get self.now object) name }
    {
        data_in(self.own_slot(object, name))
    }

    pub(crate) fn is_plain(&self, object: u32) -> bool
        ensures { result ≡ is_plain (slice_get self.now object) }
    {
        match self.things.get(object as usize) {
            None => false,
            Some(ToldThing::Plain(_)) => true,
            Some(ToldThing::Text(_)) => false,
        }
    }

    pub(crate) fn is_string(&self, object: u32) -> bool
        ensures { result ≡ is_string (slice_get self.now object) }
    {
        match self.things.get(object as usize) {
            None => false,
            Some(ToldThing::Plain(_)) => false,
            Some(ToldThing::Text(_)) => true,
        }
    }

    // One slot more in an object.
    pub(crate) fn add_slot(&mut self, object: u32, slot: ToldSlot) -> Result<(), AllocError>
        ensures { OnOk result (self.new ≡ change_thing slot (slice_get self.old object) self.old object) }
    {
        let at = object as usize;
        if at >= self.things.len() {
            return Ok(());
        }
        match &mut self.things[at] {
            ToldThing::Plain(slots) => {
                slots.add(slot)?;
                return Ok(());
            }
            ToldThing::Text(_) => return Ok(()),
        }
    }
}
