// Further names behind those of a session over an accepted world.
//
// Model: `specs/Accepted.antt` says that its slots fit with any further names.
// Promise: laws alone. With that, the laws of plain_names need nothing of the further names.
#![tactic(auto)]

mod laws;

pub use laws::accepted_slots_go_on;
