// What a reader of signs has open and counted, and what it does at a sign.
//
// Model: the next sign stands at an `At`, in a stack of frames, its top first. What is counted before it is the `Context`
// of self_grammar, a list of slots that is open its `Scope`, what a sign does its `Event`; `specs/Turns.antt` says what a
// turn is, and what its parts are.
// Promise: each function gives exactly what self_grammar or `specs/Turns.antt` says, or wants memory.
#![tactic(auto)]

mod counts;
mod events;
mod frames;
mod names;
mod scopes;
mod stack;
mod tops;
mod turns;

pub use counts::{Counts, Event, Post, Tally};
pub use events::{closing, makes, opening, quiet, saying};
pub use frames::{
    At, AtArgument, AtCode, AtContents, AtData, AtEnd, AtLocal, AtName, Body, Contents, Expression,
    Frame, Heading, Holder, Label, Message, Operand, Slots, Stop, Turn,
};
pub use names::{argument_in, name_in, setter_in, slot_item};
pub use scopes::{Owner, Scope, duplicate, too_many_arguments};
pub use stack::Stack;
pub use tops::{
    pop_body, pop_expression, pop_list, pop_locals, pop_message, pop_operand, pop_slot, pop_slots,
};
pub use turns::{simply, within};
