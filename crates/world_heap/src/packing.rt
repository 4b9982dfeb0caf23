// The bytes of strings, four to a word.
ghost use Rattle.std.specs.Prelude.{◌≡◌, ◌++◌, ◌≤◌, length, OnOk};
ghost use Rattle.heap_cells.specs.Shapes.{packed};

use heap_cells::first_word;
use std::alloc::AllocError;

// The words of a string's bytes behind others.
pub fn put_bytes(words: &mut Vec<u32>, bytes: &[u8]) -> Result<(), AllocError>
    requires { length bytes.now ≤ 4194304 }
    ensures { OnOk result (words.new.items ≡ words.old.items ++ packed bytes.now) }
{
    for at in 0..(bytes.len() + 3) / 4 {
        words.push(first_word(&bytes[4 * at..]))?;
    }
    Ok(())
}
