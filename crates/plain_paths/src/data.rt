// What a word is as the initial content of a local.
ghost use Rattle.std.specs.Prelude.{◌≡◌};
ghost use Rattle.plain_paths.specs.Paths.{IsOfHeap, datum_of};

use crate::slots::is_plain;
use object_maps::{Maps, number_of};
use self_terms::{Datum, MapId, Word, int_of_word, is_int};
use sparc_store::Memory;

// The map of strings.
const STRINGS: MapId = MapId(1);

/// What a word stands for, as a text could say it: an integer, or a plain object or a string by its
/// number; none where it is a vector or a block.
pub fn datum_of(maps: &Maps, mem: &Memory, word: Word) -> Option<Datum>
    requires { IsOfHeap maps.now mem.now word }
    ensures { result ≡ datum_of maps.now mem.now word }
{
    if is_int(word) {
        return Some(Datum::Integer(int_of_word(word)));
    }
    let map = maps.map_of(mem, word);
    if map == STRINGS || is_plain(maps, map) {
        return Some(Datum::Object(number_of(mem, word)));
    }
    None
}
