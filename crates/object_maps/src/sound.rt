// The test whether words, memory and maps are such that a lookup may read them: it looks at each object and slot once.
ghost use Rattle.std.specs.Prelude.{◌≡◌, ◌<◌, ◌⊎◌, ◌+◌, ◌-◌, ◌*◌, ◌%◌, ◌↔◌, ℕ, length, slice_get, Some, IsTrue};
ghost use Rattle.object_maps.specs.declared.maps.SlotKind.TheVariants.{Parent};
ghost use Rattle.object_maps.specs.Layout.{map_at};
ghost use Rattle.object_maps.specs.Slots.{slots_in};
ghost use Rattle.object_maps.specs.Sound.{AreObjects, HasListed, IsListed, IsObject, IsSound, IsValue};
ghost use Rattle.sparc_store.specs.Words.{HasWord, word_at};

use crate::layout::number_of;
use crate::maps::{Maps, SlotKind};
use self_terms::{MapId, Word, is_int};
use sparc_store::Memory;

/// Whether a word is an integer, or a reference to a word of memory, and its map is there.
pub fn is_value(maps: &Maps, mem: &Memory, value: Word) -> bool
    ensures { IsTrue result ↔ IsValue maps.now mem.now value }
{
    (is_int(value) || has_word(value - 1)) && is_mapped(maps, mem, value)
}

/// Whether each of the objects has its number in its second word, from 0 on, and each parent in a map is one of them.
pub fn is_sound(maps: &Maps, mem: &Memory, objects: &[Word]) -> bool
    ensures { IsTrue result ↔ IsSound maps.now mem.now objects.now }
{
    are_objects(maps, mem, objects) && have_listed(maps, mem, objects)
}

fn has_word(at: u32) -> bool
    ensures { IsTrue result ↔ HasWord at }
{
    at % 4 == 0
        && (at >= 0x1000_0000 && at < 0x1000_0000 + 33_554_432
            || at >= 0x2000_0000 && at < 0x2000_0000 + 46_137_344
            || at >= 0x3000_0000 && at < 0x3000_0000 + 4096
            || at >= 0x4000_0000 && at < 0x4800_0000 && at % 0x0200_0000 < 16_781_312)
}

fn is_mapped(maps: &Maps, mem: &Memory, value: Word) -> bool
    requires { (value % 4 ≡ 0) ⊎ HasWord (value - 1) }
    ensures { IsTrue result ↔ (map_at mem.now value < length maps.now) }
{
    (maps.map_of(mem, value).0 as usize) < maps.len()
}

fn is_reference(word: Word) -> bool
    ensures { IsTrue result ↔ ((word % 4 ≡ 1) × (HasWord (word - 1) × HasWord (word + 3))) }
{
    word % 4 == 1 && has_word(word - 1) && has_word(word + 3)
}

fn has_number(mem: &Memory, object: Word, number: usize) -> bool
    requires { HasWord (object + 3) }
    ensures { IsTrue result ↔ (word_at mem.now (object + 3) ≡ 4 * number) }
{
    let word = mem.load(object + 3);
    word % 4 == 0 && (word / 4) as usize == number
}

fn is_object(maps: &Maps, mem: &Memory, number: usize, object: Word) -> bool
    ensures { IsTrue result ↔ IsObject maps.now mem.now number object }
{
    is_reference(object) && is_mapped(maps, mem, object) && has_number(mem, object, number)
}

fn are_objects(maps: &Maps, mem: &Memory, objects: &[Word]) -> bool
    ensures { IsTrue result ↔ AreObjects maps.now mem.now objects.now }
{
    for number in 0..objects.len() {
        if !is_object(maps, mem, number, objects[number]) {
            return false;
        }
    }
    true
}

fn is_listed(maps: &Maps, mem: &Memory, objects: &[Word], word: Word) -> bool
    requires { AreObjects maps.now mem.now objects.now }
    ensures { IsTrue result ↔ IsListed objects.now word }
{
    is_reference(word) && stands_at(objects, number_of(mem, word), word)
}

fn stands_at(objects: &[Word], number: u32, word: Word) -> bool
    ensures { IsTrue result ↔ (slice_get objects.now number ≡ Some word) }
{
    match objects.get(number as usize) {
        None => false,
        Some(object) => *object == word,
    }
}

// Whether the content of a slot is one of the objects, if the slot is a parent slot.
fn is_settled(maps: &Maps, mem: &Memory, objects: &[Word], kind: SlotKind) -> bool
    requires { AreObjects maps.now mem.now objects.now }
    ensures { IsTrue result ↔ ((word : ℕ) → kind ≡ Parent word → IsListed objects.now word) }
{
    match kind {
        SlotKind::Parent(word) => is_listed(maps, mem, objects, word),
        _ => true,
    }
}

fn has_listed(maps: &Maps, mem: &Memory, objects: &[Word], map: MapId) -> bool
    requires objects { AreObjects maps.now mem.now objects.now }
    requires map { map.0 < length maps.now }
    ensures { IsTrue result ↔ HasListed objects.now (slots_in maps.now map.0) }
{
    for at in 0..maps.slot_count(map) {
        if let Some((_, kind)) = maps.slot_at(map, at) {
            if !is_settled(maps, mem, objects, kind) {
                return false;
            }
        }
    }
    true
}

fn have_listed(maps: &Maps, mem: &Memory, objects: &[Word]) -> bool
    requires { AreObjects maps.now mem.now objects.now }
    ensures { IsTrue result ↔ ((map : ℕ) → HasListed objects.now (slots_in maps.now map)) }
{
    for map in 0..maps.len() as u32 {
        if !has_listed(maps, mem, objects, MapId(map)) {
            return false;
        }
    }
    true
}
