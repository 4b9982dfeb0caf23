// Worlds: the objects and bodies of a text.
//
// Model: `specs/Loading.antt` and `specs/Nodes.antt` say what each item of a text does to what was read before it, over names
// (`specs/Names.antt`), slots and objects (`specs/Slots.antt`, `specs/Things.antt`) and bodies (`specs/Bodies.antt` of self_terms);
// `specs/Worlds.antt` says what world the items of a whole text make, or why they make none; its objects are the source's
// (`specs/Telling.antt`). `specs/SlotTexts.antt` says what the items of an edit's text are. `specs/Known.antt`,
// `specs/Kinds.antt` and `specs/Steps.antt` are for private functions alone.
// Above them `specs/Numbers.antt`, `specs/Paths.antt` and `specs/Cores.antt` say in the language's own words what objects and
// bodies are numbered by, where a path leads, and which objects are the core objects.
// Promise: `load` gives exactly that world or that refusal, or wants memory. An item is looked at twice. What the three files
// say holds of each world (`laws`).
#![tactic(auto)]

mod cores;
mod items;
mod kinds;
mod laws;
mod lexicon;
mod lists;
mod loading;
mod members;
mod nodes;
mod refusals;
mod slot_texts;
mod slots;
mod telling;
mod things;
mod values;
mod wholeness;
mod worlds;

pub use cores::CoreName;
pub use laws::{
    core_objects_are_told_by_name, paths_lead_through_own_slots,
    worlds_are_numbered_by_first_tokens,
};
pub use refusals::BuildRefusal;
pub use slot_texts::worked_slot;
pub use wholeness::worlds_are_whole;
pub use worlds::{World, load};
