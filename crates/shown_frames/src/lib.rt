// What frames in words show of activations.
//
// Model: frames in words are those of frame_walk, memory and maps those of a raw state; `value_shown` and `acts_shown` (specs/Showing.antt) are functions of
// these words alone.
// Promise: laws alone. Where a raw state stands for a state of the source, they are the values and activations of the source as they are shown
// (specs/Standing.antt).
#![tactic(auto)]

mod laws;

pub use laws::activations_show;
