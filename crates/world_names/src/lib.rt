// The names of the bodies of accepted worlds are short (`HasShortNames` of session_text, specs/Frames.antt), so that the line of an activation has room.
//
// Promise: a law alone. The names of a body's slot, and those of its arguments and locals together, have no more bytes than the text: each is spelled
// by signs of its own. It holds of the body of each number, and of the empty one that a number without a body stands for.
#![tactic(auto)]

mod laws;

pub use laws::names_are_short;
