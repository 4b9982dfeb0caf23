// All that the program does, as one call over what it meets outside.
//
// Model: `Answers` says which text and status are right, for the words, the world's bytes and the script's.
// Promise: with status 0 to 3 the sink took exactly that text and the status is that of the answer; with 4, 5 or 6 it
// took a front of it. 4 comes only where a read failed, 5 only where a write did. The session that is left, exactly
// with status 0 of a run, shows the state that plain interpretation reaches.
#![tactic(auto)]

mod laws;
mod lines;
mod numbers;
mod sessions;
mod top;
mod words;
mod worlds;

pub use laws::{files_mean_one_thing, one_answer};
pub use lines::{build_line, ok_line, read_line, script_line};
pub use sessions::{Session, all_served, is_served};
pub use top::{Ended, selfdb};
pub use words::{Task, task_of};
pub use worlds::world_of;
