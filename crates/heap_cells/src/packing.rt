// Strings in the heap: the bytes four to a word, and new strings.
ghost use Rattle.std.specs.Prelude.{◌≡◌, ◌⊎◌, ◌+◌, ◌*◌, ◌/◌, ◌<◌, ◌≤◌, ◌++◌, ◌∷◌, ℕ, List, [], length, slice_index_or};
ghost use Rattle.heap_cells.specs.Cloning.{IsWritten};
ghost use Rattle.heap_cells.specs.Heaps.{After, IsHeap};
ghost use Rattle.heap_cells.specs.Laying.{Cells, IsTop};
ghost use Rattle.heap_cells.specs.Shapes.{first_word};
ghost use Rattle.heap_cells.specs.Source.{Bytes, Made, Thing};
ghost use Rattle.heap_cells.specs.Standing.{Places};
ghost use Rattle.object_maps.specs.Slots.{Slots};
ghost use Rattle.sparc_store.specs.Words.{word_at};

use object_maps::Heap;
use self_terms::Word;
use sparc_store::Memory;

// The byte at a place, and 0 past the last.
fn byte_at(bytes: &[u8], at: usize) -> u8
    ensures { result ≡ slice_index_or bytes.now at 0 }
{
    match bytes.get(at) {
        Some(byte) => *byte,
        None => 0,
    }
}

/// The word of the first four bytes, the first the highest, with zeros where there are fewer.
pub fn first_word(bytes: &[u8]) -> u32
    ensures { result ≡ first_word bytes.now }
{
    u32::from_be_bytes([
        byte_at(bytes, 0),
        byte_at(bytes, 1),
        byte_at(bytes, 2),
        byte_at(bytes, 3),
    ])
}

// Puts the words of a new string at the heap top.
fn write(mem: &mut Memory, at: u32, number: u32, bytes: &[u8])
    requires top { IsTop at }
    requires small { length bytes.now ≤ 0x10000000 }
    requires room { at + 4 * (3 + (length bytes.now + 3) / 4) ≤ 0x20000000 + 46137344 }
    requires few { number < 500000000 }
    ensures { IsWritten mem.old mem.new at number bytes.now }
{
    mem.store(at, 4);
    mem.store(at + 4, number << 2);
    mem.store(at + 8, (bytes.len() as u32) << 2);
    for k in 0..(bytes.len() as u32 + 3) / 4 {
        mem.store(at + 12 + 4 * k, first_word(&bytes[4 * k as usize..]));
    }
}

/// A new string of these bytes, where there is room for it at the heap top.
pub fn new_string(mem: &mut Memory, heap: &mut Heap, bytes: &[u8]) -> Word
    requires top { IsTop heap.old.top }
    requires small { length bytes.now ≤ 0x10000000 }
    requires room { heap.old.top + 4 * (3 + (length bytes.now + 3) / 4) ≤ 0x20000000 + 46137344 }
    requires few { heap.old.next < 500000000 }
    ensures made { (maps : List Slots) (h : Cells) (p : Places) (objects : List Thing) (made : List Made) → IsHeap maps mem.old heap.old h p objects made
        → After maps mem.new heap.new h p (record p { objects = p.objects ++ result ∷ [] }) (objects ++ Bytes bytes.now ∷ []) made }
    // Its words stand at what was the heap's top, and no other word is new.
    ensures written { IsWritten mem.old mem.new heap.old.top heap.old.next bytes.now }
    // What lies outside the heap is as it was.
    ensures outside { (b : ℕ) → (b < 0x20000000) ⊎ (heap.new.top ≤ b) → word_at mem.new b ≡ word_at mem.old b }
    ensures next { heap.new ≡ record { top = heap.old.top + 12 + 4 * ((length bytes.now + 3) / 4); next = heap.old.next + 1 } }
    ensures word { result ≡ heap.old.top + 1 }
{
    let at = heap.top;
    write(mem, at, heap.next, bytes);
    heap.top = at + 12 + 4 * ((bytes.len() as u32 + 3) / 4);
    heap.next += 1;
    at + 1
}
