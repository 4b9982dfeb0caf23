// The table of the primitives.
ghost use Rattle.std.specs.Prelude.{◌≡◌, ◌⊎◌, ◌<◌, ◌≤◌, ℕ, List, length, slice_get, Some};
ghost use Rattle.heap_cells.specs.Heaps.{IsHeap};
ghost use Rattle.heap_cells.specs.Laying.{Cells};
ghost use Rattle.heap_cells.specs.Source.{Made};
ghost use Rattle.heap_cells.specs.Standing.{AreValues, IsValue, Places};
ghost use Rattle.prim_table.specs.Answers.{CanApply, HasCore, IsAnswer, IsPlain};
ghost use Rattle.prim_table.specs.Kinds.{args_of, effect_of, kind_of};
ghost use Rattle.self_terms.specs.declared.values.Value.{Value};
ghost use Rattle.source_model.specs.declared.objects.Thing.{Thing};
ghost use Rattle.source_model.specs.Primitives.{apply};
ghost use Rattle.source_model.specs.declared.objects.Core.{Core};
ghost use Rattle.source_model.specs.State.{State};
ghost use Rattle.sparc_store.specs.Words.{word_at};

use crate::answers::{CoreWords, PrimAnswer};
use crate::integers::of_integers;
use crate::kinds::{Kind, kind_of};
use crate::objects::{at, clone, print_integer, print_string, put, same, size, vector};
use object_maps::{Heap, Maps};
use self_terms::Word;
use source_model::Primitive;
use sparc_store::Memory;

/// What a primitive answers to a receiver and its arguments, and what it does to the heap. A print writes nothing: its line is the
/// caller's.
pub fn apply(
    maps: &Maps,
    core: CoreWords,
    mem: &mut Memory,
    heap: &mut Heap,
    prim: Primitive,
    receiver: Word,
    args: &[Word],
) -> PrimAnswer
    requires stands { CanApply maps.now core mem.old heap.old prim receiver args.now }
    requires few { heap.old.next < 500000000 }
    ensures answer { (h : Cells) (p : Places) (made : List Made) (s : State) (v : Value) (vs : List Value) → IsHeap maps.now mem.old heap.old h p s.things made → HasCore h p s.core core
        → IsValue h p v receiver → AreValues h p vs args.now → IsAnswer maps.now mem.old mem.new heap.old heap.new h p s.things made receiver result (apply s prim v vs) }
    // What lies outside the heap is as it was.
    ensures outside { (b : ℕ) → (b < 0x20000000) ⊎ (heap.new.top ≤ b) → word_at mem.new b ≡ word_at mem.old b }
{
    match kind_of(prim) {
        Kind::Integers(operation) => return of_integers(core, operation, receiver, args[0]),
        Kind::Same => return same(maps, mem, core, receiver, args[0]),
        Kind::Cloned => return clone(maps, mem, heap, receiver),
        Kind::NewVector => return vector(maps, mem, heap, core, receiver),
        Kind::Size => return size(maps, mem, receiver),
        Kind::At => return at(maps, mem, receiver, args[0]),
        Kind::Put => return put(maps, mem, heap, receiver, args[0], args[1]),
        Kind::PrintString => return print_string(maps, mem, heap, receiver),
        Kind::PrintInteger => return print_integer(maps, mem, heap, receiver),
    }
}
