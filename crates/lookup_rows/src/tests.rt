// What messages find. The Self Handbook's rules: an object's own slot hides those of its parents; a slot that is reached
// on two paths is one slot; different slots are ambiguous; each object is looked at once, so that cycles end.

use crate::worlds::{Object, Send, World, X, parent, word_of};
use object_maps::SlotKind;
use self_terms::{Name, Word};
use slot_lookup::Found;
use sparc_store::Memory;
use std::alloc::{AllocError, Global};
use std::test::Fail;

// a = (| x = 1 |), b and c with the parent a, d with the parents b and c.
const DIAMOND: &[Object] = &[(&[], Some(4)), (&[0], None), (&[0], None), (&[1, 2], None)];

// The same, where c has a slot x of its own.
const TWO_HOLDERS: &[Object] = &[
    (&[], Some(4)),
    (&[0], None),
    (&[0], Some(8)),
    (&[1, 2], None),
];

// The lobby is its own parent.
const CYCLE: &[Object] = &[(&[0], None)];

const CYCLE_WITH_X: &[Object] = &[(&[1], Some(4)), (&[0], None)];

fn one(number: u16, value: Word) -> Option<Found> {
    Some(Found::One {
        holder: word_of(number),
        kind: SlotKind::Constant(value),
    })
}

fn world_of(alloc: Global, mem: &mut Memory, objects: &[Object]) -> Result<World, AllocError> {
    let mut world = World::open(alloc)?;
    for (parents, own) in objects {
        world.add(alloc, mem, parents, *own)?;
    }
    Ok(world)
}

// 60 diamonds, each on the one before, with 2 to the 60th paths to the object 0, which alone has x.
fn tower(alloc: Global, mem: &mut Memory) -> Result<World, AllocError> {
    let mut world = World::open(alloc)?;
    world.add(alloc, mem, &[], Some(4))?;
    for floor in 0..60u16 {
        let low = 3 * floor;
        world.add(alloc, mem, &[low], None)?;
        world.add(alloc, mem, &[low], None)?;
        world.add(alloc, mem, &[low + 1, low + 2], None)?;
    }
    Ok(world)
}

// 30,000 objects, each with the one before as parent. The first alone has x.
fn chain(alloc: Global, mem: &mut Memory) -> Result<World, AllocError> {
    let mut world = World::open(alloc)?;
    world.add(alloc, mem, &[], Some(4))?;
    for number in 0..29_999u16 {
        world.add(alloc, mem, &[number], None)?;
    }
    Ok(world)
}

// 30,000 objects without parents, and one whose parents they are. The last of them alone has x.
fn fan(alloc: Global, mem: &mut Memory) -> Result<World, AllocError> {
    let mut world = World::open(alloc)?;
    let mut all = Vec::new(alloc);
    for number in 0..29_999u16 {
        world.add(alloc, mem, &[], None)?;
        all.push(number)?;
    }
    world.add(alloc, mem, &[], Some(4))?;
    all.push(29_999)?;
    world.add(alloc, mem, &all, None)?;
    Ok(world)
}

#[test]
fn small_worlds(rt: HostRuntime) -> Result<(), Fail> {
    let alloc = rt.alloc();
    let mut mem = Memory::open(alloc, 0)?;
    let unknown = Some(Found::NotUnderstood);
    let both = Some(Found::Ambiguous {
        first: 0,
        second: 2,
    });
    let rows = [
        (DIAMOND, word_of(3), Send::Message, one(0, 4)),
        (DIAMOND, 12, Send::Message, one(0, 4)),
        (DIAMOND, word_of(3), Send::Resend, one(0, 4)),
        (TWO_HOLDERS, word_of(2), Send::Message, one(2, 8)),
        (TWO_HOLDERS, word_of(3), Send::Message, both),
        (TWO_HOLDERS, word_of(2), Send::Resend, one(0, 4)),
        (
            TWO_HOLDERS,
            word_of(3),
            Send::Directed(parent(1)),
            one(2, 8),
        ),
        (TWO_HOLDERS, word_of(2), Send::Directed(X), unknown),
        (TWO_HOLDERS, word_of(2), Send::Directed(Name(7)), unknown),
        (CYCLE, word_of(0), Send::Message, unknown),
        (CYCLE_WITH_X, word_of(0), Send::Resend, one(0, 4)),
        (CYCLE, word_of(1), Send::Message, None),
    ];
    for (objects, start, send, found) in rows {
        let world = world_of(alloc, &mut mem, objects)?;
        assert_eq!(rt; world.found(alloc, &mem, start, send)?, found);
    }
    Ok(())
}

#[test]
fn large_worlds(rt: HostRuntime) -> Result<(), Fail> {
    let alloc = rt.alloc();
    let mut mem = Memory::open(alloc, 0)?;
    let world = tower(alloc, &mut mem)?;
    assert_eq!(rt;
        world.found(alloc, &mem, word_of(180), Send::Message)?,
        one(0, 4)
    );
    let world = chain(alloc, &mut mem)?;
    assert_eq!(rt;
        world.found(alloc, &mem, word_of(29_999), Send::Message)?,
        one(0, 4)
    );
    let world = fan(alloc, &mut mem)?;
    assert_eq!(rt;
        world.found(alloc, &mem, word_of(30_000), Send::Message)?,
        one(29_999, 4)
    );
    Ok(())
}
