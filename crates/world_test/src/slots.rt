// Whether what slots and vectors hold is there, and assignment slots stand behind what they assign.
ghost use Rattle.std.specs.Prelude.{◌≡◌, ◌<◌, ◌&&◌, length, slice_get, None, Some};
ghost use Rattle.source_model.specs.Objects.{is_assignable};
ghost use Rattle.source_model.specs.Testing.{assigns, content_test, each_passes, follows_test, plain_test, slots_test, thing_test};

use crate::bodies::{arguments_in, body_test, outer_in};
use crate::names::{assigns_name, takes_test};
use self_terms::{BodyId, Names, Value};
use source_model::{Content, Slot, Slots, Thing};
use world_build::World;

// Whether a value is there, and no block.
fn plain_test(things: usize, value: Value) -> bool
    ensures { result ≡ plain_test things value }
{
    match value {
        Value::Int(_) => true,
        Value::Object(object) => (object as usize) < things,
        Value::Block { .. } => false,
    }
}

// Whether a body is there, is no block's, and takes as many arguments as the name of its slot says.
fn method_test(world: &World, names: &Names, n: u32, body: BodyId) -> bool
    ensures { result ≡ content_test names.now world.now.bodies (length world.now.things) n (Content.Method body) }
{
    body_test(world, body.0)
        && takes_test(names, n, arguments_in(world, body.0))
        && outer_in(world, body.0).is_none()
}

// Whether what a slot of a name holds is there and fits its name.
fn content_test(world: &World, names: &Names, n: u32, content: Content) -> bool
    ensures { result ≡ content_test names.now world.now.bodies (length world.now.things) n content }
{
    match content {
        Content::Constant(value) => plain_test(world.things().len(), value),
        Content::Assignable(value) => plain_test(world.things().len(), value),
        Content::Assignment => takes_test(names, n, 1),
        Content::Parent(object) => (object as usize) < world.things().len(),
        Content::Method(body) => method_test(world, names, n, body),
    }
}

fn is_assignable(content: Content) -> bool
    ensures { result ≡ is_assignable content }
{
    match content {
        Content::Assignable(_) => true,
        _ => false,
    }
}

fn assigns(content: Content) -> bool
    ensures { result ≡ assigns content }
{
    match content {
        Content::Assignment => true,
        _ => false,
    }
}

// Whether a slot is no assignment slot, or assigns the slot in front of it.
fn follows_test(names: &Names, front: Option<Slot>, slot: Slot) -> bool
    ensures { result ≡ follows_test names.now front slot }
{
    if !assigns(slot.content) {
        return true;
    }
    match front {
        None => false,
        Some(front) => is_assignable(front.content) && assigns_name(names, slot.name, front.name),
    }
}

// Whether a slot passes, where this one is in front of it.
fn slot_test(world: &World, names: &Names, front: Option<Slot>, slot: Slot) -> bool
    ensures { result ≡ (content_test names.now world.now.bodies (length world.now.things) slot.name slot.content && follows_test names.now front slot) }
{
    content_test(world, names, slot.name, slot.content) && follows_test(names, front, slot)
}

fn slot_at(slots: &Slots, at: usize) -> Slot
    requires { at < length slots.now }
    ensures { slice_get slots.now at ≡ Some result }
{
    match slots.slot_at(at) {
        Some(slot) => slot,
        None => unreachable!(),
    }
}

// Whether each slot passes. Each name stands once in any list of slots, so this part of the test is passed.
fn slots_test(world: &World, names: &Names, slots: &Slots) -> bool
    ensures { result ≡ slots_test names.now world.now.bodies (length world.now.things) None slots.now }
{
    slots.have_each_once();
    let mut front = None;
    for at in 0..slots.len() {
        let slot = slot_at(slots, at);
        if !slot_test(world, names, front, slot) {
            return false;
        }
        front = Some(slot);
    }
    true
}

fn items_test(things: usize, items: &[Value]) -> bool
    ensures { result ≡ each_passes (plain_test things) items.now }
{
    for item in items {
        if !plain_test(things, *item) {
            return false;
        }
    }
    true
}

/// Whether what an object holds is there and fits.
pub fn thing_test(world: &World, names: &Names, thing: &Thing) -> bool
    ensures { result ≡ thing_test names.now world.now.bodies (length world.now.things) thing.now }
{
    match thing {
        Thing::Plain(slots) => slots_test(world, names, slots),
        Thing::Vector(items) => items_test(world.things().len(), items.as_slice()),
        Thing::Text(_) => true,
    }
}
