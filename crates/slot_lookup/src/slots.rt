// The slots of a value, as a walk looks at them.
ghost use Rattle.std.specs.Prelude.{◌≡◌, ◌<◌, length};
ghost use Rattle.object_maps.specs.Sound.{IsValue};
ghost use Rattle.slot_lookup.specs.Lookup.{has_at, slot_at, slots_of};
ghost use Rattle.slot_lookup.specs.Walk.{IsNext, next_by, seen_in};

use object_maps::{Maps, SlotKind};
use self_terms::{Name, Word};
use sparc_store::Memory;

// What stands at a place among the slots of a value.
#[derive(Clone, Copy, Drop)]
pub(crate) enum Next {
    Done,
    Other,
    Parent(Word),
}

pub(crate) fn own_slot(maps: &Maps, mem: &Memory, value: Word, name: Name) -> Option<SlotKind>
    requires { IsValue maps.now mem.now value }
    ensures { result ≡ slot_at maps.now mem.now name.0 value }
{
    let map = maps.map_of(mem, value);
    maps.slot_of(map, name)
}

pub(crate) fn has_slot(maps: &Maps, mem: &Memory, value: Word, name: Name) -> bool
    requires { IsValue maps.now mem.now value }
    ensures { result ≡ has_at maps.now mem.now name.0 value }
{
    own_slot(maps, mem, value, name).is_some()
}

pub(crate) fn next_at(maps: &Maps, mem: &Memory, value: Word, at: u32) -> Next
    requires { IsValue maps.now mem.now value }
    ensures { IsNext (slots_of maps.now mem.now value) at result }
{
    let map = maps.map_of(mem, value);
    match maps.slot_at(map, at) {
        None => Next::Done,
        Some((_, kind)) => next_of(kind),
    }
}

fn next_of(kind: SlotKind) -> Next
    ensures { result ≡ next_by kind }
{
    match kind {
        SlotKind::Constant(_) => Next::Other,
        SlotKind::Field(_) => Next::Other,
        SlotKind::Assign(_) => Next::Other,
        SlotKind::Parent(word) => Next::Parent(word),
        SlotKind::Method(_) => Next::Other,
    }
}

// Whether a walk was at an object before: it is the one that counts as visited from the start, or its number is marked.
pub(crate) fn is_seen(seen: &[bool], skip: Option<Word>, object: Word, number: u32) -> bool
    requires { number < length seen.now }
    ensures { result ≡ seen_in seen.now skip object number }
{
    match skip {
        Some(word) => word == object || seen[number as usize],
        None => seen[number as usize],
    }
}
