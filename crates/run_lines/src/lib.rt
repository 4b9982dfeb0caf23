// What machine and host tell of the current activity between commands.
//
// Model: machine and host are a `Hosting` of plain_host; `Rests` of plain_turns says for which state of the source they stand.
// Promise: `standing_of` tells how the current activity of that state stands, and `run_line` the line of a run that ended there. Neither takes memory.
#![tactic(auto)]

mod current;
mod lines;

pub use current::{Standing, standing_of};
pub use lines::run_line;
