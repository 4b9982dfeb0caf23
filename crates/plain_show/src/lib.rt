// What the frames of an activity show, read off a machine and its host.
//
// Model: a frame in words is a `Frame` of frame_walk, and a list of them is what `activations` there gives, the youngest first.
// Promise: what is read is what machine and host show (`seen` and `waiting` of plain_runs, specs/Host.antt there). Reading takes no memory.
#![tactic(auto)]

mod frames;
mod laws;
mod reading;
mod showing;
mod stacks;

pub use frames::{FrameList, FrameWords};
pub use laws::stacks_show;
pub use reading::{read_frames, read_waiting};
pub use showing::{show, value_alone};
pub use stacks::StackReader;
