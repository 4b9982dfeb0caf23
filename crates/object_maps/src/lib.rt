// Maps of objects: which slots the objects of a map have, and how words of the heap stand for objects.
//
// Contracts see `Maps` as a list of maps by number, and a map as its slots in order, each a name and a kind. A value's map
// stands in its first word; an integer has the map 0. `specs/Sound.antt` says what words, memory and maps must be so that a
// lookup may read them, and `is_sound` and `is_value` test it. Finding a slot takes constant time however many slots a map has.
#![tactic(auto)]

mod layout;
mod maps;
mod sound;

pub use layout::{Heap, number_of};
pub use maps::{Map, Maps, SlotKind};
pub use sound::{is_sound, is_value};
