// Activations that have contexts, in plain code against the source: their locals, and how they end.
//
// Model: `DoesStep` and `EndsActivity` (specs/Steps.antt of plain_steps) say that words do the source's step. Well-formed states of the source
// (specs/Formed.antt of source_model) have the local that a node names.
// Promise: laws alone. In a well-formed state every read of a local and every assignment to one does the source's step, however many bodies
// out the local is, and whether it stands in a frame or in a context; so does every end of an activation, whether it has a context or not.
// So do words that make a block (`Makes` of specs/Making.antt); those of a block literal make one, or lead to service 8 where its plain cost isn't
// left (specs/Literals.antt).
#![tactic(auto)]

mod laws;

pub use laws::{
    activations_answer, blocks_are_made, literals_make, locals_do_steps, oldest_activations_end,
};
