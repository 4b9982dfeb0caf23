// The names and the maps of a session over a world.
//
// Model: `specs/Sessions.antt` says which names and maps a session has beside those of its world: `lobby` and the messages that evaluate blocks;
// a map of contexts, and one for the blocks of each body. `session_of` makes them.
// Promise: a session over a world begins with them (`sessions_begin`, with `SessionsBegin` of specs/Knowing.antt): the maps of blocks say of a
// block what the source says of it.
#![tactic(auto)]

mod laws;
mod mapping;
mod naming;
mod sessions;

pub use laws::{blocks_have_maps, heaps_know_blocks, sessions_begin, sessions_have_names};
pub use sessions::{Session, session_of};
