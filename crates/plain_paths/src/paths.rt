// Paths.
ghost use Rattle.std.specs.Prelude.{◌≡◌, ℕ, Some, map};
ghost use Rattle.plain_paths.specs.Paths.{IsOfHeap, data_of, further, name_number, root, word_at_path};
ghost use Rattle.plain_paths.specs.declared.slots.OwnSlot.{OwnSlot};

use crate::slots::{OwnSlot, own_slot};
use object_maps::Maps;
use self_terms::{Name, Word};
use sparc_store::Memory;

// The word of the data of a slot.
fn data_of(slot: OwnSlot) -> Option<Word>
    ensures { result ≡ data_of slot }
{
    match slot {
        OwnSlot::Missing => None,
        OwnSlot::Method(_) => None,
        OwnSlot::Data(word) => Some(word),
        OwnSlot::Assignment => None,
    }
}

// One name further on a path.
fn further(maps: &Maps, mem: &Memory, from: Word, name: Name) -> Option<Word>
    requires { IsOfHeap maps.now mem.now from }
    ensures word { result ≡ further maps.now mem.now (Some from) name.0 }
    ensures stands { (word : ℕ) → result ≡ Some word → IsOfHeap maps.now mem.now word }
{
    data_of(own_slot(maps, mem, from, name))
}

// What the first name leads to.
fn root(maps: &Maps, mem: &Memory, lobby: Word, lobby_name: Name, name: Name) -> Option<Word>
    requires { IsOfHeap maps.now mem.now lobby }
    ensures word { result ≡ root maps.now mem.now lobby lobby_name.0 name.0 }
    ensures stands { (word : ℕ) → result ≡ Some word → IsOfHeap maps.now mem.now word }
{
    if name.0 == lobby_name.0 {
        return Some(lobby);
    }
    further(maps, mem, lobby, name)
}

/// The word at a path, which leads from the lobby through own slots; none where a name on the way
/// is missing or is no data.
pub fn follow(
    maps: &Maps,
    mem: &Memory,
    lobby: Word,
    lobby_name: Name,
    path: &[Name],
) -> Option<Word>
    requires { IsOfHeap maps.now mem.now lobby }
    ensures word { result ≡ word_at_path maps.now mem.now lobby lobby_name.0 (map name_number path.now) }
    ensures stands { (word : ℕ) → result ≡ Some word → IsOfHeap maps.now mem.now word }
{
    if path.len() == 0 {
        return None;
    }
    let mut here = root(maps, mem, lobby, lobby_name, path[0])?;
    for at in 1..path.len() {
        here = further(maps, mem, here, path[at])?;
    }
    Some(here)
}
