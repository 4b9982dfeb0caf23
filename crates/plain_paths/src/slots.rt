// Own slots of plain objects.
ghost use Rattle.std.specs.Prelude.{◌≡◌, ◌<◌, length};
ghost use Rattle.object_maps.specs.Slots.{slots_in};
ghost use Rattle.plain_paths.specs.Paths.{IsOfHeap, is_plain, own_at};

use object_maps::{Maps, SlotKind};
use self_terms::{BodyId, MapId, Name, Word};
use sparc_store::Memory;

/// What the own slot of a name holds: nothing, as there is none; a method, by its body; data or a
/// parent, by the word; or it is the assignment slot of another.
#[derive(Clone, Copy, PartialEq, Eq, Drop, Debug)]
pub enum OwnSlot {
    Missing,
    Method(BodyId),
    Data(Word),
    Assignment,
}

// The name of the parent slot of what is no object of slots; no text has it.
const NO_TEXT: Name = Name(0);

/// Whether a map is that of plain objects.
pub(crate) fn is_plain(maps: &Maps, map: MapId) -> bool
    requires { map.0 < length maps.now }
    ensures { result ≡ is_plain maps.now map.0 }
{
    map.0 >= 3 && maps.slot_of(map, NO_TEXT).is_none()
}

/// What the own slot of a name of a value holds. Nothing but plain objects has slots.
pub fn own_slot(maps: &Maps, mem: &Memory, word: Word, name: Name) -> OwnSlot
    requires { IsOfHeap maps.now mem.now word }
    ensures { result ≡ own_at maps.now mem.now word name.0 }
{
    let map = maps.map_of(mem, word);
    if !is_plain(maps, map) {
        return OwnSlot::Missing;
    }
    match maps.slot_of(map, name) {
        None => return OwnSlot::Missing,
        Some(SlotKind::Constant(data)) => return OwnSlot::Data(data),
        Some(SlotKind::Field(at)) => return OwnSlot::Data(mem.load(word + 7 + 4 * at)),
        Some(SlotKind::Assign(_)) => return OwnSlot::Assignment,
        Some(SlotKind::Parent(to)) => return OwnSlot::Data(to),
        Some(SlotKind::Method(body)) => return OwnSlot::Method(body),
    }
}
