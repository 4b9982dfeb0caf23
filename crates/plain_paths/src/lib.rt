// Paths followed over the words of a running program.
//
// A path is a list of names. It leads from the lobby through the present contents of own slots of
// plain objects; as the first name `lobby` is the lobby itself.
// Model: `specs/Paths.antt` says what stands at a path, what an own slot holds and which data a word
// is, over maps and words alone.
// Promise: this is what is read off the words, and it is what the source says (`specs/Laws.antt`),
// wherever the words stand for the source's objects.
#![tactic(auto)]

mod data;
mod laws;
mod paths;
mod slots;

pub use data::datum_of;
pub use laws::{data_stand, paths_lead, slots_hold};
pub use paths::follow;
pub use slots::{OwnSlot, own_slot};
