// Where a session over an accepted world begins.
//
// Model: `IsFresh` (specs/Fresh.antt) says what machine and host show at first, where the words of a world were put into memory; `begun` of
// world_state is the state of the source.
// Promise: laws alone, by which the one stands for the other, and lookups over maps and words meet what messages meet.
#![tactic(auto)]

mod laws;

pub use laws::{heaps_stand_alone, worlds_begin};
