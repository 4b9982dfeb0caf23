// The reader in code: what a sign of a body does.
//
// Model: what is open, what is counted and what a turn is are those of reader_states; `specs/CodeTurns.antt` says what a
// sign does to them where a unary is wanted, behind one, behind a delegate, and behind the period of a return.
// Promise: each function gives exactly that turn, or refuses the sign where there is none, or wants memory.
#![tactic(auto)]

mod code;

pub use code::{begin, end, follow_delegate, go_on};
