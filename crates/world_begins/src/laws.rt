// Laws of the beginning of a session.
ghost use Rattle.object_maps.specs.declared.layout.Heap.{Heap};
ghost use Rattle.object_maps.specs.Slots.{Slots};
ghost use Rattle.sparc_store.specs.Words.{Words};
ghost use Rattle.source_model.specs.declared.objects.Thing.{Thing};
ghost use Rattle.heap_cells.specs.Heaps.{IsHeap};
ghost use Rattle.heap_cells.specs.Laying.{Cells};
ghost use Rattle.heap_cells.specs.Source.{Made};
ghost use Rattle.heap_cells.specs.Standing.{Places};
ghost use Rattle.frame_walk.specs.Raw.{Raw};
ghost use Rattle.world_begins.specs.Fresh.{BeginsCore, IsFresh};
ghost use Rattle.world_heap.specs.Heaps.{HasHeap};
ghost use Rattle.world_heap.specs.Images.{Image};
ghost use Rattle.world_heap.specs.Stands.{Stands};
ghost use Rattle.world_state.specs.Begun.{begun};
ghost use Rattle.std.specs.Prelude.{◌≡◌, ℕ, List};

/// A law: a heap stands in the words of the heap alone, whatever the other regions hold.
pub fn heaps_stand_alone()
    ensures heap { (maps : List Slots) (mem new : Words) (heap : Heap) (h : Cells) (p : Places) (things : List Thing) (made : List Made) → IsHeap maps mem heap h p things made → new.heap ≡ mem.heap → IsHeap maps new heap h p things made }
    ensures world { (i : Image) (mem new : Words) → HasHeap i mem → new.heap ≡ mem.heap → HasHeap i new }
{}

/// A law: over a world whose maps and words stand for its objects, and whose words were put into memory, a raw state without activities stands
/// for the state with which a session begins.
pub fn worlds_begin()
    ensures { (i : Image) (mem : Words) (r : Raw) (names : List (List ℕ)) (advisors : ℕ) → Stands i → HasHeap i mem → IsFresh i mem r → BeginsCore i r (begun i.world names advisors) }
{}
