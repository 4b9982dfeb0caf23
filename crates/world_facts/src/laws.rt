// What holds of the world of every accepted text.
ghost use Rattle.std.specs.Prelude.{◌≡◌, ◌<◌, ◌≤◌, ℕ, List, Some, length, slice_get};
ghost use Rattle.world_build.specs.Wholeness.{IsWhole};
ghost use Rattle.world_build.specs.Worlds.{World};
ghost use Rattle.world_facts.specs.Accepted.{IsAccepted};
ghost use Rattle.world_heap.specs.Built.{IsModest};

/// What the slots of the world hold is there, none of them has the name 0, strings are bytes, and core objects are there.
pub fn accepted_worlds_are_whole()
    ensures { (bytes : List ℕ) (w : World) → ((i b : ℕ) → slice_get bytes i ≡ Some b → b < 256) → IsAccepted bytes w → IsWhole w }
{}

/// The world of a text of at most 1,048,576 bytes fits into the heap: it takes at most 1,048,576 words.
pub fn accepted_worlds_are_modest()
    ensures { (bytes : List ℕ) (w : World) → length bytes ≤ 1048576 → IsAccepted bytes w → IsModest w }
{}
