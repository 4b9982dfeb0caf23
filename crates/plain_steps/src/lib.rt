// Plain code against the source: the words of a node do the source's step.
//
// Model: `StandsFor` (specs/Steps.antt) says that what machine and host show stands for a state of the source.
// Promise: laws alone. From the poll of a node so many instructions lead to the poll of the next one, or to the service that an answer asks
// for, and machine and host then stand for the state after the source's step: for literals, `self`, nil, the end of a statement, own locals
// that a frame keeps, `_Restart`, sums and differences of integers, and the end of an activation without a context. On the way to a
// poll what was left of goal and plain cost stays in its place, and what is put at the heap's top is paid for; words that do so keep the heap's
// room paid for (`IsPaid` of specs/Paying.antt).
#![tactic(auto)]

mod laws;

pub use laws::{primitives_perform, steps_pay, words_do_steps, words_end_activities};
