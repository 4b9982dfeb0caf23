// What a message finds: lookup over maps and words.
//
// `lookup`, `resend` and `directed` answer by the definition of lookup in source_model, where the objects are words, an
// object has the slots of its map, and its parents are the contents of its map's parent slots in order. They take no memory
// and look at no object twice: they are lent a `Walk`, whose model is the number of objects that it has room for.
#![tactic(auto)]

mod sends;
mod slots;
mod walk;

pub use sends::{Found, directed, lookup, resend};
pub use walk::Walk;
