// What the text of an edit tells is the text of a method slot (`IsSlotText` of source_model, specs/Told.antt).
//
// Promise: laws alone (`specs/Formed.antt`), of the items of each text of an edit that is read within the limits: what its bodies say is there, its
// initial contents are among its strings, its first body is there and stands in no other one, and no object opens. That its bodies fit, and that the
// first one takes as many arguments as the slot's name says, no law says yet.
#![tactic(auto)]

mod laws;

pub use laws::{initials_fit, method_stands, names_said, only_code};
