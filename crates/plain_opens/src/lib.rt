// A host over an opened world rests for the state with which a session over that world begins.
//
// Model: `opened_host` and `IsLoaded` of plain_host (specs/Opened.antt there) say what a host holds over a world's image, and what stands in its
// memory; `begun` of world_state is the state of the source, and `Rests` of plain_turns says that machine and host stand for a state between
// commands.
// Promise: laws (specs/Opens.antt), `open`, which gives that host, and `units_have_room`, which tells whether the code region has room for units
// of all bodies, as they ask.
#![tactic(auto)]

mod laws;
mod opening;
mod rooms;

pub use laws::{fixed_names_sum, worlds_open};
pub use opening::open;
pub use rooms::units_have_room;
