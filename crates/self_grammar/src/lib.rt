// The grammar of worlds and method slots, and what of a text is refused where.
//
// Model: a text is the list of its signs (tokens whose names are numbers). `specs/Grammar.antt` has the texts as a type of
// its own, a type a level; `specs/Spelling.antt` spells each as signs, each with the items that it says and with what is
// wrong there by the rules and limits that have a time of their own; `specs/Refusal.antt` says which sign is refused.
// Promise: each text is a world or refused as one, in one way, and an edit likewise; its bodies keep their limits (`laws`).
#![tactic(auto)]

mod laws;
mod pieces;
mod signs;

pub use laws::{edits_mean_one_thing, worlds_mean_one_thing};
pub use pieces::{Breach, Held, Item, Limits, Made, SlotForm, Target, TextNode, Words};
pub use signs::{ReadKind, ReadRefusal, Reserved, Role, Sign, Spot, Symbol};
