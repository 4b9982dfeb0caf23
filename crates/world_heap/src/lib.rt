// Worlds in the heap: maps, and the words of objects.
//
// Model: `specs/Layout.antt` says where objects stand, `specs/Kinds.antt` what map an object of slots has, `specs/Images.antt`
// which maps a world has and which words. `specs/Built.antt` says what the layout needs of a world.
#![tactic(auto)]

mod images;
mod kinds;
mod layout;
mod packing;
mod words;

pub use images::{WorldImage, image_of};
