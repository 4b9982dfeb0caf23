// The activations that the frames of a stack show.
//
// Model: a frame is told by where it begins, its window and where its code goes on; a descriptor of that address names the place of each
// value (specs/Places.antt); `activations` reads them frame by frame (specs/Walk.antt).
// Promise: laws alone. What frames show rests on the words of their own stack from where the youngest begins.
#![tactic(auto)]

mod laws;

pub use laws::frames_rest_on_their_words;
