// Primitives over objects, vectors and strings.
ghost use Rattle.std.specs.Prelude.{◌≡◌, ◌≢◌, ◌⊎◌, ◌+◌, ◌*◌, ◌<◌, ◌≤◌, ◌∷◌, ℕ, [], List, Some, map, slice_get};
ghost use Rattle.heap_cells.specs.Cloning.{clone_words};
ghost use Rattle.heap_cells.specs.Heaps.{IsHeap};
ghost use Rattle.heap_cells.specs.Laying.{Cells};
ghost use Rattle.heap_cells.specs.Source.{Made};
ghost use Rattle.heap_cells.specs.Standing.{IsValue, Places};
ghost use Rattle.object_maps.specs.Slots.{Slots};
ghost use Rattle.object_maps.specs.declared.layout.Heap.{Heap};
ghost use Rattle.prim_table.specs.Answers.{HasCore, HasRoom, IsAnswer, IsPlain};
ghost use Rattle.prim_table.specs.Operands.{Operand, TextAt, VectorAt};
ghost use Rattle.self_terms.specs.declared.values.Value.{Value};
ghost use Rattle.source_model.specs.declared.objects.Thing.TheVariants.{Text, Vector};
ghost use Rattle.source_model.specs.declared.objects.Thing.{Thing};
ghost use Rattle.source_model.specs.Primitives.{at, cloned, element_at, int_print, new_vector, number, put, put_at, same, size, string_print, thing_in};
ghost use Rattle.source_model.specs.declared.objects.Core.{Core};
ghost use Rattle.sparc_store.specs.Words.{word_at};

use crate::answers::{CoreWords, PrimAnswer};
use crate::integers::truth;
use crate::sorts::{Sort, is_block, sort_of};
use heap_cells::clone_into;
use object_maps::{Heap, Maps};
use self_terms::{ErrorName, Word, is_int};
use sparc_store::Memory;

// The size of the largest vector that can be asked for.
const MOST_ELEMENTS: u32 = 65_536;

/// Whether two values that are no blocks are equal integers or one object.
pub fn same(
    maps: &Maps,
    mem: &Memory,
    core: CoreWords,
    receiver: Word,
    argument: Word,
) -> PrimAnswer
    requires receiver { (heap : Heap) × Operand maps.now mem.now heap receiver }
    requires argument { (heap : Heap) × Operand maps.now mem.now heap argument }
    ensures { (heap : Heap) (h : Cells) (p : Places) (things : List Thing) (made : List Made) (known : Core) (v u : Value) → IsHeap maps.now mem.now heap h p things made
        → HasCore h p known core → IsValue h p v receiver → IsValue h p u argument → IsPlain h p result (same known v (u ∷ [])) }
{
    if is_block(maps, mem, receiver) {
        return PrimAnswer::Fails(ErrorName::BadType);
    }
    if is_block(maps, mem, argument) {
        return PrimAnswer::Fails(ErrorName::BadType);
    }
    truth(core, receiver == argument)
}

/// A clone.
pub fn clone(maps: &Maps, mem: &mut Memory, heap: &mut Heap, receiver: Word) -> PrimAnswer
    requires room { (o : Operand maps.now mem.old heap.old receiver) × HasRoom heap.old (cloned o.value (thing_in o.objects o.value)) }
    requires few { heap.old.next < 500000000 }
    ensures answer { (h : Cells) (p : Places) (things : List Thing) (made : List Made) (v : Value) → IsHeap maps.now mem.old heap.old h p things made → IsValue h p v receiver
        → IsAnswer maps.now mem.old mem.new heap.old heap.new h p things made receiver result (cloned v (thing_in things v)) }
    ensures outside { (b : ℕ) → (b < 0x20000000) ⊎ (heap.new.top ≤ b) → word_at mem.new b ≡ word_at mem.old b }
{
    if is_block(maps, mem, receiver) {
        return PrimAnswer::Fails(ErrorName::BadType);
    }
    PrimAnswer::Done(clone_into(maps, mem, heap, receiver))
}

/// A vector of so many nils, from 0 to 65,536.
pub fn vector(
    maps: &Maps,
    mem: &mut Memory,
    heap: &mut Heap,
    core: CoreWords,
    receiver: Word,
) -> PrimAnswer
    requires room { (known : Core) × (o : Operand maps.now mem.old heap.old receiver) × HasRoom heap.old (new_vector known o.value) }
    requires few { heap.old.next < 500000000 }
    ensures answer { (h : Cells) (p : Places) (things : List Thing) (made : List Made) (known : Core) (v : Value) → IsHeap maps.now mem.old heap.old h p things made → HasCore h p known core
        → IsValue h p v receiver → IsAnswer maps.now mem.old mem.new heap.old heap.new h p things made receiver result (new_vector known v) }
    ensures outside { (b : ℕ) → (b < 0x20000000) ⊎ (heap.new.top ≤ b) → word_at mem.new b ≡ word_at mem.old b }
{
    if !is_int(receiver) {
        return PrimAnswer::Fails(ErrorName::BadType);
    }
    // As words, negative integers are greater than any other.
    if receiver > 4 * MOST_ELEMENTS {
        return PrimAnswer::Fails(ErrorName::BadSize);
    }
    PrimAnswer::Done(heap_cells::new_vector(mem, heap, receiver / 4, core.nil))
}

/// The number of elements of a vector, or of bytes of a string.
pub fn size(maps: &Maps, mem: &Memory, receiver: Word) -> PrimAnswer
    requires { (heap : Heap) × Operand maps.now mem.now heap receiver }
    ensures { (heap : Heap) (h : Cells) (p : Places) (things : List Thing) (made : List Made) (v : Value) → IsHeap maps.now mem.now heap h p things made → IsValue h p v receiver
        → IsPlain h p result (size (thing_in things v)) }
{
    match sort_of(maps, mem, receiver) {
        Sort::Vector => return PrimAnswer::Done(mem.load(receiver + 7)),
        Sort::Text => return PrimAnswer::Done(mem.load(receiver + 7)),
        _ => return PrimAnswer::Fails(ErrorName::BadType),
    }
}

// An element of a vector.
fn element(mem: &Memory, receiver: Word, index: Word) -> PrimAnswer
    requires { (maps : List Slots) × (heap : Heap) × VectorAt maps mem.now heap receiver }
    ensures { (maps : List Slots) (heap : Heap) (h : Cells) (p : Places) (things : List Thing) (made : List Made) (n : ℕ) (items : List Value) (v : Value) → IsHeap maps mem.now heap h p things made
        → slice_get p.objects n ≡ Some receiver → slice_get things n ≡ Some (Vector items) → IsValue h p v index → IsPlain h p result (element_at items v) }
{
    if !is_int(index) {
        return PrimAnswer::Fails(ErrorName::BadType);
    }
    if index >= mem.load(receiver + 7) {
        return PrimAnswer::Fails(ErrorName::BadIndex);
    }
    PrimAnswer::Done(mem.load(receiver + 11 + index))
}

// A byte of a string, as an integer.
fn byte(mem: &Memory, receiver: Word, index: Word) -> PrimAnswer
    requires { (maps : List Slots) × (heap : Heap) × TextAt maps mem.now heap receiver }
    ensures { (maps : List Slots) (heap : Heap) (h : Cells) (p : Places) (things : List Thing) (made : List Made) (n : ℕ) (bytes : List ℕ) (v : Value) → IsHeap maps mem.now heap h p things made
        → slice_get p.objects n ≡ Some receiver → slice_get things n ≡ Some (Text bytes) → IsValue h p v index → IsPlain h p result (element_at (map number bytes) v) }
{
    if !is_int(index) {
        return PrimAnswer::Fails(ErrorName::BadType);
    }
    if index >= mem.load(receiver + 7) {
        return PrimAnswer::Fails(ErrorName::BadIndex);
    }
    PrimAnswer::Done(u32::from(mem.load_byte(receiver + 11 + index / 4)) << 2)
}

/// An element of a vector or a byte of a string.
pub fn at(maps: &Maps, mem: &Memory, receiver: Word, index: Word) -> PrimAnswer
    requires { (heap : Heap) × Operand maps.now mem.now heap receiver }
    ensures { (heap : Heap) (h : Cells) (p : Places) (things : List Thing) (made : List Made) (v u : Value) → IsHeap maps.now mem.now heap h p things made → IsValue h p v receiver → IsValue h p u index
        → IsPlain h p result (at (thing_in things v) u) }
{
    match sort_of(maps, mem, receiver) {
        Sort::Vector => return element(mem, receiver, index),
        Sort::Text => return byte(mem, receiver, index),
        _ => return PrimAnswer::Fails(ErrorName::BadType),
    }
}

// Puts a value in the place of an element.
fn put_in(
    maps: &Maps,
    mem: &mut Memory,
    heap: &Heap,
    receiver: Word,
    index: Word,
    value: Word,
) -> PrimAnswer
    requires { VectorAt maps.now mem.old heap.now receiver }
    ensures answer { (h : Cells) (p : Places) (things : List Thing) (made : List Made) (n : ℕ) (items : List Value) (v u : Value) → IsHeap maps.now mem.old heap.now h p things made
        → slice_get p.objects n ≡ Some receiver → slice_get things n ≡ Some (Vector items) → IsValue h p v index → IsValue h p u value
        → IsAnswer maps.now mem.old mem.new heap.now heap.now h p things made receiver result (put_at n items v u) }
    ensures outside { (b : ℕ) → (b < 0x20000000) ⊎ (heap.now.top ≤ b) → word_at mem.new b ≡ word_at mem.old b }
{
    if !is_int(index) {
        return PrimAnswer::Fails(ErrorName::BadType);
    }
    if index >= mem.load(receiver + 7) {
        return PrimAnswer::Fails(ErrorName::BadIndex);
    }
    mem.store(receiver + 11 + index, value);
    PrimAnswer::Done(receiver)
}

/// Puts a value in the place of an element of a vector, and answers the vector.
pub fn put(
    maps: &Maps,
    mem: &mut Memory,
    heap: &Heap,
    receiver: Word,
    index: Word,
    value: Word,
) -> PrimAnswer
    requires { Operand maps.now mem.old heap.now receiver }
    ensures answer { (h : Cells) (p : Places) (things : List Thing) (made : List Made) (v u x : Value) → IsHeap maps.now mem.old heap.now h p things made
        → IsValue h p v receiver → IsValue h p u index → IsValue h p x value
        → IsAnswer maps.now mem.old mem.new heap.now heap.now h p things made receiver result (put v (thing_in things v) (u ∷ x ∷ [])) }
    ensures outside { (b : ℕ) → (b < 0x20000000) ⊎ (heap.now.top ≤ b) → word_at mem.new b ≡ word_at mem.old b }
{
    match sort_of(maps, mem, receiver) {
        Sort::Vector => return put_in(maps, mem, heap, receiver, index, value),
        _ => return PrimAnswer::Fails(ErrorName::BadType),
    }
}

/// A string's print answers the string; the caller writes the line.
pub fn print_string(maps: &Maps, mem: &Memory, heap: &Heap, receiver: Word) -> PrimAnswer
    requires { Operand maps.now mem.now heap.now receiver }
    ensures { (h : Cells) (p : Places) (things : List Thing) (made : List Made) (v : Value) → IsHeap maps.now mem.now heap.now h p things made → IsValue h p v receiver
        → IsAnswer maps.now mem.now mem.now heap.now heap.now h p things made receiver result (string_print (thing_in things v)) }
{
    match sort_of(maps, mem, receiver) {
        Sort::Text => return PrimAnswer::Done(receiver),
        _ => return PrimAnswer::Fails(ErrorName::BadType),
    }
}

/// An integer's print answers the integer; the caller writes the line.
pub fn print_integer(maps: &Maps, mem: &Memory, heap: &Heap, receiver: Word) -> PrimAnswer
    requires { Operand maps.now mem.now heap.now receiver }
    ensures { (h : Cells) (p : Places) (things : List Thing) (made : List Made) (v : Value) → IsHeap maps.now mem.now heap.now h p things made → IsValue h p v receiver
        → IsAnswer maps.now mem.now mem.now heap.now heap.now h p things made receiver result (int_print v) }
{
    if !is_int(receiver) {
        return PrimAnswer::Fails(ErrorName::BadType);
    }
    PrimAnswer::Done(receiver)
}
