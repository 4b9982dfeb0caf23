// Where the objects of a world stand.
ghost use Rattle.std.specs.Prelude.{◌≡◌, ◌+◌, ◌<◌, ◌≤◌, ◌^◌, length, IfOk};
ghost use Rattle.world_heap.specs.Layout.{fields, span, span_of, reference};
ghost use Rattle.world_heap.specs.Kinds.{behind};
ghost use Rattle.world_heap.specs.Steps.{references_from};
ghost use Rattle.world_heap.specs.Heaps.{places};
ghost use Rattle.world_heap.specs.Built.{IsModest};

use self_terms::{Row, Word};
use source_model::{Content, Slots, Thing};
use std::alloc::{AllocError, Global};
use world_build::World;

/// The first address of the heap.
pub const HEAP: u32 = 0x2000_0000;

// How many assignable slots stand in front of what is behind a slot.
pub fn behind(count: u32, content: Content) -> u32
    requires { count < 2 ^ 31 }
    ensures { result ≡ behind count content }
{
    match content {
        Content::Constant(_) => count,
        Content::Assignable(_) => count + 1,
        Content::Assignment => count,
        Content::Parent(_) => count,
        Content::Method(_) => count,
    }
}

// How many of the slots are assignable.
fn field_count(slots: &Slots) -> u32
    requires { length (fields slots.now) ≤ 1048576 }
    ensures { result ≡ length (fields slots.now) }
{
    let mut count = 0;
    for at in 0..slots.len() {
        if let Some(slot) = slots.slot_at(at) {
            count = behind(count, slot.content);
        }
    }
    count
}

// How many words an object takes.
fn span(thing: &Thing) -> u32
    requires { span thing.now ≤ 1048576 }
    ensures { result ≡ span thing.now }
{
    match thing {
        Thing::Plain(slots) => 2 + field_count(slots),
        Thing::Vector(items) => 3 + items.as_slice().len() as u32,
        Thing::Text(text) => 3 + (text.as_slice().len() as u32 + 3) / 4,
    }
}

// The references to the objects in the order of their numbers, and behind them what would be that of the next.
pub fn references(alloc: Global, things: &[Thing]) -> Result<Vec<Word>, AllocError>
    requires { span_of things.now ≤ 1048576 }
    ensures { IfOk result (λ r. r.items ≡ references_from 0 things.now) }
{
    let mut references = Vec::new(alloc);
    let mut words = 0;
    for thing in things {
        references.push(HEAP + 4 * words + 1)?;
        words += span(thing);
    }
    references.push(HEAP + 4 * words + 1)?;
    Ok(references)
}

// The reference to the object of a number.
pub fn reference(world: &World, references: &[Word], object: u32) -> Word
    requires { references.now ≡ references_from 0 world.now.things }
    ensures { result ≡ reference world.now.things object }
{
    let at = object as usize;
    if at < references.len() {
        return references[at];
    }
    references[references.len() - 1]
}

// The references to the objects of a world, by their numbers.
pub fn places(alloc: Global, world: &World) -> Result<Row<Word>, AllocError>
    requires { IsModest world.now }
    ensures { IfOk result (λ r. r ≡ (places world.now).objects) }
{
    let references = references(alloc, world.things())?;
    let mut objects = Row::open(alloc);
    for k in 0..world.things().len() {
        objects.push(reference(world, references.as_slice(), k as u32))?;
    }
    Ok(objects)
}
