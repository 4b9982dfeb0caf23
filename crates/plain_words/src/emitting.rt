//! Units in memory.
ghost use Rattle.std.specs.Prelude.{◌≡◌, ◌⊎◌, ◌≤◌, ◌<◌, ◌+◌, ◌*◌, ◌%◌, length, ℕ};
ghost use Rattle.sparc_store.specs.Words.{word_at, IsWithin};
ghost use Rattle.plain_words.specs.Going.{At};
ghost use Rattle.plain_words.specs.Putting.{AreInsns, Apart};

use sparc_insn::{Insn, encode};
use sparc_store::Memory;

/// Puts instructions into the code region from an address on. Every other word stays as it was.
pub fn put_code(memory: &mut Memory, at: u32, code: &[Insn])
    requires aligned { at % 4 ≡ 0 }
    requires from { 0x10000000 ≤ at }
    requires to { at + 4 * length code.now ≤ 0x12000000 }
    requires insns { AreInsns code.now }
    ensures at { At memory.new at code.now }
    ensures apart { Apart memory.old memory.new at (length code.now) }
    ensures within { IsWithin memory.new }
{
    for j in 0..code.len() {
        memory.store(at + 4 * j as u32, encode(code[j]));
    }
    memory.within();
}
