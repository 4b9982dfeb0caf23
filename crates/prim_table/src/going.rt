// What an answer leaves, in one form for every effect.
ghost use Rattle.std.specs.Prelude.{ℕ, List};
ghost use Rattle.heap_cells.specs.Heaps.{IsHeap};
ghost use Rattle.heap_cells.specs.Laying.{Cells};
ghost use Rattle.heap_cells.specs.Source.{Made};
ghost use Rattle.heap_cells.specs.Standing.{IsValue, Places};
ghost use Rattle.object_maps.specs.Slots.{Slots};
ghost use Rattle.object_maps.specs.declared.layout.Heap.{Heap};
ghost use Rattle.prim_table.specs.Answers.{GoesOn, IsAnswer};
ghost use Rattle.prim_table.specs.declared.answers.PrimAnswer.TheVariants.{Done};
ghost use Rattle.self_terms.specs.declared.values.Value.{Value};
ghost use Rattle.source_model.specs.declared.objects.Thing.{Thing};
ghost use Rattle.source_model.specs.Primitives.{Effect};
ghost use Rattle.sparc_store.specs.Words.{Words};

/// A primitive that answers a word leaves a heap that stands for what its effect makes of the things, and the word stands for the
/// value that the effect gives.
pub fn answers_go_on()
    ensures { (maps : List Slots) (mem new : Words) (heap heap_new : Heap) (h : Cells) (p : Places) (things : List Thing) (made : List Made) (v : Value) (receiver w : ℕ) (e : Effect)
        → IsHeap maps mem heap h p things made → IsValue h p v receiver → IsAnswer maps mem new heap heap_new h p things made receiver (Done w) e
        → GoesOn maps new heap heap_new h p things made v w e }
{}
