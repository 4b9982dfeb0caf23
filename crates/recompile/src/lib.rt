// What an optimising compiler asks of others: advisors, their questions and answers, and what becomes of a unit.
//
// Model: an advisor has `says`: what it would answer to a question after the questions of a list. A question is answered by
// what it says after none, and from then on it says what it said after that question. A note may change all that it says.
// No call takes memory. Advisors are kept as `Box<dyn Advisor + Drop>`. `Plain` is the advisor that always says no.
#![tactic(auto)]

mod advisors;
mod questions;
mod refusing;

pub use advisors::Advisor;
pub use questions::{Advice, Ask, Asked, Note};
pub use refusing::Plain;

#[cfg(test)]
mod tests;
