// What the objects of a text are to the source, once its core objects are known.
ghost use Rattle.std.specs.Prelude.{◌≡◌, ◌++◌, length, map, slice_index_or, IfOk, OnOk};
ghost use Rattle.source_model.specs.Messages.{value_of};
ghost use Rattle.world_build.specs.Telling.{core_of, object_of, content_of, slot_from, thing_of};

use crate::slots::{ToldContent, ToldSlot, ToldSlots};
use crate::things::ToldThing;
use self_terms::{BodyId, Datum, Value};
use source_model::{Bytes, Content, Core, Slot, Slots, Thing};
use std::alloc::{AllocError, Global};

// The number at a place, and 0 past the last.
fn number_at(numbers: &[u32], at: usize) -> u32
    ensures { result ≡ slice_index_or numbers.now at 0 }
{
    match numbers.get(at) {
        Some(number) => *number,
        None => 0,
    }
}

// The core objects, whose numbers stand in the order of their names.
pub(crate) fn core_of(numbers: &[u32]) -> Core
    ensures { result ≡ core_of numbers.now }
{
    Core {
        nil: number_at(numbers, 0),
        yes: number_at(numbers, 1),
        no: number_at(numbers, 2),
        integers: number_at(numbers, 3),
        strings: number_at(numbers, 4),
        vectors: number_at(numbers, 5),
        blocks: number_at(numbers, 6),
    }
}

fn value_of(core: Core, value: Datum) -> Value
    ensures { result ≡ value_of core value }
{
    match value {
        Datum::Integer(int) => Value::Int(int),
        Datum::Object(object) => Value::Object(object),
        Datum::Nil => Value::Object(core.nil),
    }
}

fn object_of(core: Core, value: Datum) -> u32
    ensures { result ≡ object_of core value }
{
    match value {
        Datum::Integer(_) => 0,
        Datum::Object(object) => object,
        Datum::Nil => core.nil,
    }
}

fn content_of(core: Core, content: ToldContent) -> Content
    ensures { result ≡ content_of core content }
{
    match content {
        ToldContent::Constant(value) => Content::Constant(value_of(core, value)),
        ToldContent::Assignable(value) => Content::Assignable(value_of(core, value)),
        ToldContent::Assignment => Content::Assignment,
        ToldContent::Parent(value) => Content::Parent(object_of(core, value)),
        ToldContent::Method(body) => Content::Method(BodyId(body)),
    }
}

fn slot_from(core: Core, slot: ToldSlot) -> Slot
    ensures { result ≡ slot_from core slot }
{
    Slot {
        name: slot.name,
        content: content_of(core, slot.content),
    }
}

fn list_of(alloc: Global, core: Core, slots: &ToldSlots) -> Result<Vec<Slot>, AllocError>
    ensures { IfOk result (λ list. list.items ≡ map (slot_from core) slots.now) }
{
    let mut list = Vec::new(alloc);
    for at in 0..slots.len() {
        if let Some(slot) = slots.slot_at(at) {
            list.push(slot_from(core, slot))?;
        }
    }
    Ok(list)
}

fn slots_of(alloc: Global, core: Core, slots: &ToldSlots) -> Result<Slots, AllocError>
    ensures { IfOk result (λ list. list ≡ map (slot_from core) slots.now) }
{
    slots.have_each_once();
    let list = list_of(alloc, core, slots)?;
    Ok(Slots::of(list))
}

fn thing_of(alloc: Global, core: Core, thing: &ToldThing) -> Result<Thing, AllocError>
    ensures { IfOk result (λ x. x ≡ thing_of core thing.now) }
{
    match thing {
        ToldThing::Plain(slots) => Ok(Thing::Plain(slots_of(alloc, core, slots)?)),
        ToldThing::Text(bytes) => Ok(Thing::Text(Bytes::of(bytes.as_slice().to_vec(alloc)?))),
    }
}

// The objects of a text behind others.
pub(crate) fn put_things(
    alloc: Global,
    core: Core,
    told: &[ToldThing],
    things: &mut Vec<Thing>,
) -> Result<(), AllocError>
    ensures { OnOk result (things.new.items ≡ things.old.items ++ map (thing_of core) told.now) }
{
    for thing in told {
        things.push(thing_of(alloc, core, thing)?)?;
    }
    Ok(())
}
