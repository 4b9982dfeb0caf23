// The walk: up the parent slots in slot order, each object once, over tables that stand ready.
ghost use Rattle.std.specs.Prelude.{◌≡◌, ◌<◌, ◌≤◌, ◌+◌, ◌++◌, ◌∷◌, [], ℕ, List, length, slice_index_or, IfOk, false, true, vec_len, vec_capacity};
ghost use Rattle.object_maps.specs.Layout.{number_at};
ghost use Rattle.object_maps.specs.Sound.{IsSound, IsValue};
ghost use Rattle.source_model.specs.Lookup.{Among};
ghost use Rattle.sparc_store.specs.Words.{HasWord};
ghost use Rattle.slot_lookup.specs.Lookup.{has_at};
ghost use Rattle.slot_lookup.specs.Walk.{AreObjects, from_parents, told};

use crate::slots::{Next, has_slot, is_seen, next_at};
use object_maps::{Maps, number_of};
use self_terms::{Name, Word};
use sparc_store::Memory;
use std::alloc::{AllocError, Global};
use std::marker::Model;

/// Room for walks over a number of objects. A lookup leaves it as it found it.
#[derive(Drop)]
pub struct Walk {
    seen: Vec<bool>,
    stack: Vec<(u32, u32)>,
    trail: Vec<u32>,
}

impl Model for Walk {
    ghost use Rattle.std.specs.Prelude.{length, ◌+◌, ◌≡◌, ◌≤◌, ℕ, [], slice_index_or, vec_capacity, false};

    // how many objects it has room for
    ghost Value = { ℕ };

    ghost view = { λ w. length w.seen.items };

    ghost invariant = { λ w. ((x : ℕ) → slice_index_or w.seen.items x false ≡ false) × (w.stack.items ≡ []) × (w.trail.items ≡ [])
        × (length w.seen.items + 1 ≤ vec_capacity w.stack) × (length w.seen.items ≤ vec_capacity w.trail) };
}

impl Walk {
    /// Room for walks over `objects` objects.
    pub fn open(alloc: Global, objects: u32) -> Result<Walk, AllocError>
        ensures { IfOk result (λ w. w ≡ objects) }
    {
        let objects = objects as usize;
        Ok(Walk {
            seen: unseen(alloc, objects)?,
            stack: Vec::with_capacity(alloc, objects + 1)?,
            trail: Vec::with_capacity(alloc, objects)?,
        })
    }

    /// How many objects it has room for.
    pub fn room(&self) -> usize
        ensures { result ≡ self.now }
    {
        self.seen.len()
    }

    // What is met from the parents of a value, where `skip` counts as visited.
    pub(crate) fn from_parents_of(
        &mut self,
        maps: &Maps,
        mem: &Memory,
        start: Word,
        skip: Option<Word>,
        name: Name,
    ) -> Met
        requires sound { (objects : List ℕ) × (IsSound maps.now mem.now objects × (length objects ≤ self.old)) }
        requires start { IsValue maps.now mem.now start }
        requires skip { (word : ℕ) → skip ≡ Some word → (word ≡ start) × (has_at maps.now mem.now name.0 word ≡ false) }
        ensures met { told result ≡ from_parents maps.now mem.now self.old start skip name.0 }
        ensures objects { AreObjects maps.now mem.now result }
        ensures room { self.new ≡ self.old }
    {
        walked(
            maps,
            mem,
            start,
            skip,
            name,
            &mut self.seen,
            &mut self.stack,
            &mut self.trail,
        )
    }
}

// What a walk met: no holder, one, or the first two.
#[derive(Clone, Copy, Drop)]
pub(crate) enum Met {
    Nothing,
    One(Word),
    Two(Word, Word),
}

fn unseen(alloc: Global, count: usize) -> Result<Vec<bool>, AllocError>
    ensures len { IfOk result (λ v. length v.items ≡ count) }
    ensures each { IfOk result (λ v. (x : ℕ) → slice_index_or v.items x false ≡ false) }
{
    vec![in alloc; false; count]
}

fn keep_frame(stack: &mut Vec<(u32, u32)>, value: Word, at: u32)
    requires { vec_len stack.old < vec_capacity stack.old }
    ensures items { stack.new.items ≡ stack.old.items ++ (value, at) ∷ [] }
    ensures capacity { vec_capacity stack.old ≤ vec_capacity stack.new }
{
    let _kept = stack.push((value, at));
}

fn keep(trail: &mut Vec<u32>, object: Word)
    requires { vec_len trail.old < vec_capacity trail.old }
    ensures items { trail.new.items ≡ trail.old.items ++ object ∷ [] }
    ensures capacity { vec_capacity trail.old ≤ vec_capacity trail.new }
{
    let _kept = trail.push(object);
}

fn walked(
    maps: &Maps,
    mem: &Memory,
    start: Word,
    skip: Option<Word>,
    name: Name,
    seen: &mut [bool],
    stack: &mut Vec<(u32, u32)>,
    trail: &mut Vec<u32>,
) -> Met
    requires sound { (objects : List ℕ) × (IsSound maps.now mem.now objects × (length objects ≤ length seen.old)) }
    requires start { IsValue maps.now mem.now start }
    requires skip { (word : ℕ) → skip ≡ Some word → (word ≡ start) × (has_at maps.now mem.now name.0 word ≡ false) }
    requires unseen { (x : ℕ) → slice_index_or seen.old x false ≡ false }
    requires stack { stack.old.items ≡ [] }
    requires trail { trail.old.items ≡ [] }
    requires deep { length seen.old + 1 ≤ vec_capacity stack.old }
    requires long { length seen.old ≤ vec_capacity trail.old }
    ensures met { told result ≡ from_parents maps.now mem.now (length seen.old) start skip name.0 }
    ensures objects { AreObjects maps.now mem.now result }
    ensures unseen { (x : ℕ) → slice_index_or seen.new x false ≡ false }
    ensures stack { stack.new.items ≡ [] }
    ensures trail { trail.new.items ≡ [] }
    ensures deep { vec_capacity stack.old ≤ vec_capacity stack.new }
    ensures long { vec_capacity trail.old ≤ vec_capacity trail.new }
{
    let met = walk_from(maps, mem, start, skip, name, seen, stack, trail);
    clear(mem, seen, trail);
    stack.clear();
    trail.clear();
    met
}

fn clear(mem: &Memory, seen: &mut [bool], trail: &[u32])
    requires numbered { (x : ℕ) → Among x trail.now → HasWord (x + 3) × (number_at mem.now x < length seen.old) }
    requires covers { (n : ℕ) → slice_index_or seen.old n false ≡ true → (x : ℕ) × (Among x trail.now × (number_at mem.now x ≡ n)) }
    ensures { (n : ℕ) → slice_index_or seen.new n false ≡ false }
{
    for x in trail {
        seen[number_of(mem, *x) as usize] = false;
    }
}

fn walk_from(
    maps: &Maps,
    mem: &Memory,
    start: Word,
    skip: Option<Word>,
    name: Name,
    seen: &mut [bool],
    stack: &mut Vec<(u32, u32)>,
    trail: &mut Vec<u32>,
) -> Met
    requires sound { (objects : List ℕ) × (IsSound maps.now mem.now objects × (length objects ≤ length seen.old)) }
    requires start { IsValue maps.now mem.now start }
    requires skip { (word : ℕ) → skip ≡ Some word → (word ≡ start) × (has_at maps.now mem.now name.0 word ≡ false) }
    requires unseen { (x : ℕ) → slice_index_or seen.old x false ≡ false }
    requires stack { stack.old.items ≡ [] }
    requires trail { trail.old.items ≡ [] }
    requires deep { length seen.old + 1 ≤ vec_capacity stack.old }
    requires long { length seen.old ≤ vec_capacity trail.old }
    ensures met { told result ≡ from_parents maps.now mem.now (length seen.old) start skip name.0 }
    ensures objects { AreObjects maps.now mem.now result }
    ensures numbered { (x : ℕ) → Among x trail.new.items → HasWord (x + 3) × (number_at mem.now x < length seen.new) }
    ensures covers { (n : ℕ) → slice_index_or seen.new n false ≡ true → (x : ℕ) × (Among x trail.new.items × (number_at mem.now x ≡ n)) }
    ensures deep { vec_capacity stack.old ≤ vec_capacity stack.new }
    ensures long { vec_capacity trail.old ≤ vec_capacity trail.new }
{
    let mut first: Option<Word> = None;
    keep_frame(stack, start, 0);
    while let Some((x, at)) = stack.pop() {
        match next_at(maps, mem, x, at) {
            Next::Done => continue,
            Next::Other => keep_frame(stack, x, at + 1),
            Next::Parent(p) => {
                keep_frame(stack, x, at + 1);
                let number = number_of(mem, p);
                if is_seen(seen, skip, p, number) {
                    continue;
                }
                seen[number as usize] = true;
                keep(trail, p);
                if !has_slot(maps, mem, p, name) {
                    keep_frame(stack, p, 0);
                    continue;
                }
                if let Some(h) = first {
                    return Met::Two(h, p);
                }
                first = Some(p);
            }
        }
    }
    match first {
        None => Met::Nothing,
        Some(h) => Met::One(h),
    }
}
