// Over the world of an accepted text a session may begin, with no test at run time.
//
// Promise: laws alone (`specs/Ready.antt`). Of the world of each text within the limits for which code can be made (`IsLimited` of world_code):
// its names start with the two fixed ones; with those of a session behind them a session over it begins with a well-formed state; and the code region
// has room for units of all its bodies.
#![tactic(auto)]

mod laws;

pub use laws::{
    evaluators_are_taken, failure_is_taken, names_go_on, names_start_fixed, names_stay_fixed,
    sessions_begin, units_have_room,
};
