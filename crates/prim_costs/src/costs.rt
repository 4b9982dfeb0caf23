// How many words a primitive takes.
ghost use Rattle.std.specs.Prelude.{◌≡◌, ◌<◌, ◌≤◌, ◌+◌, ℕ, List, drop, length};
ghost use Rattle.heap_cells.specs.Cloning.{IsClonable, clone_words, field_count, one_field};
ghost use Rattle.heap_cells.specs.Heaps.{IsHeap};
ghost use Rattle.heap_cells.specs.Laying.{Cells};
ghost use Rattle.heap_cells.specs.Source.{Made};
ghost use Rattle.heap_cells.specs.Standing.{IsValue, Places};
ghost use Rattle.object_maps.specs.Layout.{map_at};
ghost use Rattle.object_maps.specs.Slots.{Slots, slot_named, slots_in};
ghost use Rattle.object_maps.specs.Sound.{IsValue as IsSoundValue};
ghost use Rattle.object_maps.specs.declared.layout.Heap.{Heap};
ghost use Rattle.prim_costs.specs.Taking.{taking_of};
ghost use Rattle.prim_table.specs.Answers.{cost};
ghost use Rattle.prim_table.specs.Operands.{Operand, is_block_sort, sort_at, sort_named};
ghost use Rattle.self_terms.specs.declared.values.Value.{Value};
ghost use Rattle.source_model.specs.Primitives.{apply, cloned, new_vector, thing_in};
ghost use Rattle.source_model.specs.State.{State};
ghost use Rattle.source_model.specs.declared.objects.Core.{Core};
ghost use Rattle.source_model.specs.declared.objects.Thing.{Thing};
ghost use Rattle.sparc_store.specs.Words.{HasWord, Words};

use object_maps::{Maps, SlotKind};
use self_terms::{MapId, Name, Word, is_int};
use source_model::Primitive;
use sparc_store::Memory;

/// What a primitive makes: nothing, the copy of its receiver, or a vector.
#[derive(Clone, Copy, PartialEq, Eq, Drop, Debug)]
pub enum Taking {
    Nothing,
    Copy,
    Vector,
}

// The name of the parent slot of what is no object of slots; no text has it.
const NO_TEXT: Name = Name(0);

// The size of the largest vector that can be asked for.
const MOST_ELEMENTS: u32 = 65_536;

fn taking_of(prim: Primitive) -> Taking
    ensures { result ≡ taking_of prim }
{
    match prim {
        Primitive::Clone => Taking::Copy,
        Primitive::VectorNew => Taking::Vector,
        _ => Taking::Nothing,
    }
}

fn words_of_slot(kind: SlotKind) -> u32
    ensures count { result ≡ one_field kind }
    ensures small { result ≤ 1 }
{
    match kind {
        SlotKind::Field(_) => 1,
        _ => 0,
    }
}

fn field_at(maps: &Maps, map: MapId, at: u32) -> u32
    requires map { map.0 < length maps.now }
    requires at { at < length (slots_in maps.now map.0) }
    ensures count { result + field_count (drop (at + 1) (slots_in maps.now map.0)) ≡ field_count (drop at (slots_in maps.now map.0)) }
    ensures small { result ≤ 1 }
{
    match maps.slot_at(map, at) {
        Some((_, kind)) => words_of_slot(kind),
        None => 0,
    }
}

// How many words an object has for the assignable slots of its map.
fn fields_of(maps: &Maps, map: MapId) -> u32
    requires { map.0 < length maps.now }
    ensures count { result ≡ field_count (slots_in maps.now map.0) }
    ensures small { result ≤ 500000000 }
{
    let mut count = 0;
    for at in 0..maps.slot_count(map) {
        count += field_at(maps, map, at);
    }
    count
}

// How many words the clone of an object or a vector takes.
fn words_in(maps: &Maps, mem: &Memory, value: Word, map: MapId) -> u32
    requires map { map.0 ≡ map_at mem.now value }
    requires high { 2 ≤ map.0 }
    requires mapped { map.0 < length maps.now }
    requires size { map.0 ≡ 2 → HasWord (value + 7) }
    ensures { result ≡ clone_words maps.now mem.now value }
{
    if map.0 == 2 {
        return 3 + (mem.load(value + 7) >> 2);
    }
    2 + fields_of(maps, map)
}

// How many words the clone of a value that is no block takes.
fn clone_words(maps: &Maps, mem: &Memory, value: Word) -> u32
    requires { (heap : Heap) × IsClonable maps.now mem.now heap value }
    ensures { result ≡ clone_words maps.now mem.now value }
{
    let map = maps.map_of(mem, value);
    if map.0 < 2 {
        return 0;
    }
    words_in(maps, mem, value, map)
}

// Whether a map has a slot of the name that no text has.
fn is_named(maps: &Maps, map: MapId) -> bool
    requires { map.0 < length maps.now }
    ensures { result ≡ is_block_sort (sort_named (slot_named 0 (slots_in maps.now map.0))) }
{
    match maps.slot_of(map, NO_TEXT) {
        None => false,
        Some(_) => true,
    }
}

// Whether a value is a block.
fn is_block(maps: &Maps, mem: &Memory, value: Word) -> bool
    requires { IsSoundValue maps.now mem.now value }
    ensures { result ≡ is_block_sort (sort_at maps.now mem.now value) }
{
    let map = maps.map_of(mem, value);
    match map.0 {
        0 => false,
        1 => false,
        2 => false,
        _ => is_named(maps, map),
    }
}

// What a clone takes.
fn words_of_copy(maps: &Maps, mem: &Memory, receiver: Word) -> u32
    requires { (heap : Heap) × Operand maps.now mem.now heap receiver }
    ensures { (heap : Heap) (h : Cells) (p : Places) (things : List Thing) (made : List Made) (v : Value) → IsHeap maps.now mem.now heap h p things made → IsValue h p v receiver → result ≡ cost (cloned v (thing_in things v)) }
{
    if is_block(maps, mem, receiver) {
        return 0;
    }
    clone_words(maps, mem, receiver)
}

// What a vector takes, of so many elements as an integer says.
fn words_of_vector(receiver: Word) -> u32
    ensures { (maps : List Slots) (mem : Words) (heap : Heap) (h : Cells) (p : Places) (things : List Thing) (made : List Made) (known : Core) (v : Value) → IsHeap maps mem heap h p things made → IsValue h p v receiver → result ≡ cost (new_vector known v) }
{
    if !is_int(receiver) {
        return 0;
    }
    // As words, negative integers are greater than any other.
    if receiver > 4 * MOST_ELEMENTS {
        return 0;
    }
    3 + receiver / 4
}

/// How many words of plain cost a primitive takes, applied to a receiver.
pub fn words_taken(maps: &Maps, mem: &Memory, prim: Primitive, receiver: Word) -> u32
    requires { (heap : Heap) × Operand maps.now mem.now heap receiver }
    ensures { (heap : Heap) (h : Cells) (p : Places) (made : List Made) (s : State) (v : Value) (vs : List Value) → IsHeap maps.now mem.now heap h p s.things made → IsValue h p v receiver → result ≡ cost (apply s prim v vs) }
{
    match taking_of(prim) {
        Taking::Nothing => return 0,
        Taking::Copy => return words_of_copy(maps, mem, receiver),
        Taking::Vector => return words_of_vector(receiver),
    }
}
