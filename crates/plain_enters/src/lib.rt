// Methods entered in plain code: what their frames show, and that a stack has room for them.
//
// Model: `filled` (specs/Entering.antt) is memory when a method has filled its frame; no body's frame has more words than `largest_frame`.
// Promise: laws alone.
#![tactic(auto)]

mod laws;

pub use laws::{entered_frames_show, stacks_have_room};
