// Units in memory.
//
// Promise: laws alone. Where the unit of a body is put behind the others, machine and host stand for the same state, at the poll of the same
// node, and the body has its unit.
#![tactic(auto)]

mod laws;

pub use laws::units_are_put;
