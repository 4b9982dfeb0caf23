// Paths over a running program.
//
// Model: `specs/Standing.antt` says that what plain_paths reads off the maps and the memory of a host is
// what the source says of the state for which machine and host stand.
// Promise: laws alone. By them the words that stand for values may be handed to `follow`, `own_slot`
// and `datum_of`.
#![tactic(auto)]

mod laws;

pub use laws::paths_stand;
