// Activations that end.
ghost use Rattle.std.specs.Prelude.{◌≡◌, ◌≢◌, ◌+◌, ℕ, Some, slice_get};
ghost use Rattle.heap_cells.specs.Ending.{AreCleared, IsCleared};
ghost use Rattle.sparc_store.specs.Words.{HasWord};

use self_terms::Word;
use sparc_store::Memory;

/// The activations of these contexts end, one after the other: the frame mark of each context becomes 0. A 0 stands for an activation
/// without a context.
pub fn clear_marks(mem: &mut Memory, contexts: &[Word])
    requires { (k w : ℕ) → slice_get contexts.now k ≡ Some w → w ≢ 0 → HasWord (w + 7) }
    ensures { AreCleared mem.old contexts.now mem.new }
{
    for context in contexts {
        clear_mark(mem, *context);
    }
}

fn clear_mark(mem: &mut Memory, context: Word)
    requires { context ≢ 0 → HasWord (context + 7) }
    ensures { IsCleared mem.old context mem.new }
{
    if context != 0 {
        mem.store(context + 7, 0);
    }
}
