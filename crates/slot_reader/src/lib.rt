// The reader of slots: what a sign does where a slot is wanted, in its name, and behind it.
//
// Model: what is open, what is counted and what a turn is are those of reader_states; `specs/SlotTurns.antt` says what a
// sign does to them.
// Promise: each function gives exactly that turn, or refuses the sign where there is none, or wants memory.
#![tactic(auto)]

mod ends;
mod heads;

pub use ends::{follow_argument, follow_lone, follow_member, follow_method, misfits};
pub use heads::{
    begin_slot, follow_keyword_argument, follow_keywords, follow_name, follow_operand,
    follow_operator, follow_star, want_keyword_argument,
};
