// Further names behind those of a session.
//
// Model: `specs/Growing.antt` says when names may come behind those of a state, and that machine and host
// then rest for it as they did.
// Promise: laws alone.
#![tactic(auto)]

mod laws;

pub use laws::{names_go_on, sessions_go_on};
