// Lookups that the host makes over the machine's own memory.
//
// Model: host and machine stand for a state (`StandsFor` of plain_steps), whose lookups by words speak of the words of the heap alone.
// Promise: laws alone. A lookup over all memory may be made, and finds what it finds over the words of the heap (specs/Looking.antt); the word of
// the method holder stands in the frame in view; and what is found for a node that sends is what its message meets (specs/Telling.antt).
#![tactic(auto)]

mod laws;

pub use laws::{founds_tell, holders_stand, lookups_may_be_made, memories_agree};
