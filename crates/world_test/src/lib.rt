// Whether a session over a world may begin, by computation.
//
// Model: `can_begin` of source_model (`specs/Testing.antt` there) over `begun` of world_state: each node of a body finds the values that it takes
// and what it names, what nodes, locals and slots speak of is there, and the core objects are.
// Promise: `can_begin_with` says just that with any names, `can_begin` with those of the world. It takes no memory, and looks at each
// node, local and slot once. Where it says so, the session is well formed at its beginning (`can_begin_tells`). The names are to have
// `value:With:`, which `session_names` puts behind those of a world, with the other names of a session.
#![tactic(auto)]

mod bodies;
mod further;
mod laws;
mod names;
mod nodes;
mod said;
mod slots;
mod worlds;

pub use further::{session_names, starts_fixed};
pub use laws::can_begin_tells;
pub use names::{arity, number_of};
pub use worlds::{can_begin, can_begin_with};
