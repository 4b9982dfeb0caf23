// Primitives in plain code against the source: service 3, which applies them.
//
// Model: `IsPerformed` (specs/Asking.antt) says how a primitive's node asks for service 3, with which values and words. `performs`
// (specs/Services.antt) is what the service does to machine and host where the primitive has an answer, and `applied` (specs/Rows.antt) which
// primitive a name with so many arguments is.
// Promise: laws alone.
#![tactic(auto)]

mod laws;

pub use laws::{
    answers_do_steps, failures_end_activities, names_tell_rows, operands_are_ready, primitives_ask,
};
