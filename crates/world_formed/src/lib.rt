// A session over the world of an accepted text begins with a well-formed state (`IsWellFormed` of source_model, specs/Formed.antt).
//
// Promise: laws alone (`specs/Begins.antt`). Of the world of each text within the limits for which code can be made (`IsLimited` of world_code):
// its bodies fit, what they say is there, its slots fit, its values and core objects are there. So a session over it begins well, with its names
// or with further ones behind them, where `value:With:` is one of them.
#![tactic(auto)]

mod laws;

pub use laws::{
    accepted_bodies_fit, accepted_bodies_say, accepted_things_fit, accepted_values_stand,
    accepted_worlds_begin_formed,
};
