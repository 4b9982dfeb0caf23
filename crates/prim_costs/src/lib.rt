// The plain cost of primitives.
//
// Model: `cost` of prim_table is how many words of plain cost an effect takes: a new object or vector takes those of its cell, and nothing else takes any.
// Promise: `words_taken` tells them from the words alone, before the primitive is applied.
#![tactic(auto)]

mod costs;

pub use costs::words_taken;
