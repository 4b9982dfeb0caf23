// What the text of an edit says.
ghost use Rattle.std.specs.Prelude.{◌≡◌, ◌-◌, ◌<◌, ◌≤◌, length, slice_get, Some, IfOk};
ghost use Rattle.world_build.specs.SlotTexts.{slot_of};
ghost use Rattle.slot_text.specs.Contents.{body_with};
ghost use Rattle.slot_text.specs.Telling.{shown};

use crate::contents::InitialTold;
use crate::rows::rows_of;
use crate::teller::Teller;
use self_terms::{Body, BodyList, Row};
use source_model::Bytes;
use std::alloc::{AllocError, Global};
use std::marker::Model;

/// What the text of an edit says: one method slot, with its strings and bodies. Strings have numbers from 0, bodies from 1, and
/// the first body is the method's own.
#[derive(Drop)]
pub struct SlotTold {
    name: u32,
    strings: Row<Bytes>,
    bodies: BodyList,
    rows: Vec<Row<InitialTold>>,
    size: usize,
}

impl Model for SlotTold {
    ghost use Rattle.std.specs.Prelude.{◌≡◌, length};
    ghost use Rattle.source_model.specs.Edits.{SlotText};
    ghost use Rattle.slot_text.specs.Contents.{bodies_with};

    ghost Value = { SlotText };

    ghost view = { λ s. record { name = s.name; strings = s.strings; bodies = bodies_with s.rows.items s.bodies; size = s.size } };

    ghost invariant = { λ s. length s.rows.items ≡ length s.bodies };
}

impl SlotTold {
    /// The number of the slot's name.
    pub fn name(&self) -> u32
        ensures { result ≡ self.now.name }
    {
        self.name
    }

    /// The strings in the order of their numbers from 0.
    pub fn strings(&self) -> &[Bytes]
        ensures { result.now ≡ self.now.strings }
    {
        self.strings.as_slice()
    }

    /// How many bodies there are.
    pub fn bodies(&self) -> usize
        ensures { result ≡ length self.now.bodies }
    {
        self.bodies.len()
    }

    /// The body of a number from 1, and what its locals hold at first, in their order. What stands in the body's own locals
    /// as initial content says nothing.
    pub fn body(&self, number: u32) -> (&Body, &[InitialTold])
        requires given { 0 < number }
        requires within { number ≤ length self.now.bodies }
        ensures { slice_get self.now.bodies (number - 1) ≡ Some (body_with result.1.now result.0.now) }
    {
        let row = &self.rows[number as usize - 1];
        (self.bodies.at(number), row.as_slice())
    }

    /// How many slots, arguments, locals and nodes the text has, counted together.
    pub fn size(&self) -> usize
        ensures { result ≡ self.now.size }
    {
        self.size
    }
}

// The slot, once all of its text was read.
pub(crate) fn finish(alloc: Global, teller: Teller) -> Result<SlotTold, AllocError>
    ensures { IfOk result (λ told. told ≡ slot_of (shown teller)) }
{
    let Teller {
        names: _,
        strings,
        bodies,
        around: _,
        code: _,
        waiting: _,
        size,
        held: _,
        kept,
        name,
    } = teller;
    let rows = rows_of(alloc, bodies.len(), kept)?;
    Ok(SlotTold {
        name,
        strings,
        bodies,
        rows,
        size,
    })
}
