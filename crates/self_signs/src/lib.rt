// The signs of a text: its tokens, with numbers for their names.
//
// Model: `specs/Signs.antt` says what the signs of a text are, where these names were given before; `specs/Numbers.antt`
// is for private functions alone.
// Promise: `signs_of` gives exactly those signs, or wants memory. A name that was given stays; of the signs the last one,
// and no other, is the end or a fault.
#![tactic(auto)]

mod signs;

pub use signs::{SignList, signs_of};
