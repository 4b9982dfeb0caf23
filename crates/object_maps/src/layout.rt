// The words of an object in the heap.
ghost use Rattle.std.specs.Prelude.{◌≡◌, ◌+◌};
ghost use Rattle.object_maps.specs.Layout.{number_at};
ghost use Rattle.sparc_store.specs.Words.{HasWord};

use self_terms::Word;
use sparc_store::Memory;

/// The address of the first free word of the heap, and the next object's number.
#[derive(Clone, Copy, PartialEq, Eq, Debug)]
pub struct Heap {
    pub top: u32,
    pub next: u32,
}

/// The number of an object, which stands in its second word.
pub fn number_of(mem: &Memory, object: Word) -> u32
    requires { HasWord (object + 3) }
    ensures { result ≡ number_at mem.now object }
{
    mem.load(object + 3) >> 2
}
