// Sends, resends and directed resends.
ghost use Rattle.std.specs.Prelude.{◌≡◌, ◌≤◌, ℕ, List, length};
ghost use Rattle.object_maps.specs.Sound.{IsSound, IsValue};
ghost use Rattle.slot_lookup.specs.Lookup.{found_above, found_from, found_through, one_of, shown, slot_at};
ghost use Rattle.slot_lookup.specs.Walk.{AreObjects, told};

use crate::slots::own_slot;
use crate::walk::{Met, Walk};
use object_maps::{Maps, SlotKind, number_of};
use self_terms::{Name, Selector, Word};
use sparc_store::Memory;

/// What a lookup answers: the one holder and its slot; no holder; more than one, with the object numbers of the first two
/// that a walk meets which takes parent slots in slot order.
#[derive(Clone, Copy, PartialEq, Eq, Drop, Debug)]
pub enum Found {
    One { holder: Word, kind: SlotKind },
    NotUnderstood,
    Ambiguous { first: u32, second: u32 },
}

/// What a message to a value finds.
pub fn lookup(maps: &Maps, mem: &Memory, start: Word, sel: Selector, walk: &mut Walk) -> Found
    requires sound { (objects : List ℕ) × (IsSound maps.now mem.now objects × (length objects ≤ walk.old)) }
    requires start { IsValue maps.now mem.now start }
    ensures found { result ≡ found_from maps.now mem.now walk.old start sel.name.0 }
    ensures room { walk.new ≡ walk.old }
{
    if let Some(kind) = own_slot(maps, mem, start, sel.name) {
        return Found::One {
            holder: start,
            kind,
        };
    }
    let met = walk.from_parents_of(maps, mem, start, Some(start), sel.name);
    show(maps, mem, sel.name, met)
}

/// What `resend.m` finds in a method of a holder: the lookup begins at the holder's parents.
pub fn resend(maps: &Maps, mem: &Memory, holder: Word, sel: Selector, walk: &mut Walk) -> Found
    requires sound { (objects : List ℕ) × (IsSound maps.now mem.now objects × (length objects ≤ walk.old)) }
    requires holder { IsValue maps.now mem.now holder }
    ensures found { result ≡ found_above maps.now mem.now walk.old holder sel.name.0 }
    ensures room { walk.new ≡ walk.old }
{
    let met = walk.from_parents_of(maps, mem, holder, None, sel.name);
    show(maps, mem, sel.name, met)
}

/// What `p.m` finds in a method of a holder: the lookup begins at the content of the holder's own parent slot p. It is not
/// understood where the holder has no slot p, or one that is no parent.
pub fn directed(
    maps: &Maps,
    mem: &Memory,
    holder: Word,
    parent: Name,
    sel: Selector,
    walk: &mut Walk,
) -> Found
    requires sound { (objects : List ℕ) × (IsSound maps.now mem.now objects × (length objects ≤ walk.old)) }
    requires holder { IsValue maps.now mem.now holder }
    ensures found { result ≡ found_through maps.now mem.now walk.old (slot_at maps.now mem.now parent.0 holder) sel.name.0 }
    ensures room { walk.new ≡ walk.old }
{
    match own_slot(maps, mem, holder, parent) {
        Some(SlotKind::Parent(to)) => lookup(maps, mem, to, sel, walk),
        _ => Found::NotUnderstood,
    }
}

fn show(maps: &Maps, mem: &Memory, name: Name, met: Met) -> Found
    requires { AreObjects maps.now mem.now met }
    ensures { result ≡ shown maps.now mem.now name.0 (told met) }
{
    match met {
        Met::Nothing => Found::NotUnderstood,
        Met::One(holder) => one(holder, own_slot(maps, mem, holder, name)),
        Met::Two(first, second) => Found::Ambiguous {
            first: number_of(mem, first),
            second: number_of(mem, second),
        },
    }
}

fn one(holder: Word, kind: Option<SlotKind>) -> Found
    ensures { result ≡ one_of holder kind }
{
    match kind {
        None => Found::NotUnderstood,
        Some(kind) => Found::One { holder, kind },
    }
}
