// What the text of an edit says, computed.
//
// Model: `specs/SlotTexts.antt` of world_build says what the items of an edit's text are, one after the other: the name of one
// slot, its strings and its bodies, with the initial contents of locals as the text says them. `SlotTold` is that (`SlotText` of
// source_model); `specs/Contents.antt` says how it is read off. `specs/Telling.antt` is for private functions alone.
// Promise: `slot_text_of` gives exactly what the definition gives, and the names that it needs on the way; no path is followed.
#![tactic(auto)]

mod contents;
mod lists;
mod members;
mod naming;
mod nodes;
mod rows;
mod teller;
mod telling;
#[cfg(test)]
mod tests;
mod told;

pub use contents::InitialTold;
pub use telling::slot_text_of;
pub use told::SlotTold;
