// What service 1, a send, does in plain code beside data and methods: assignment slots and errors.
//
// Model: `IsSent` of plain_sends says what holds where a node that sends has asked for the service; `assigns` and `failed` of plain_runs
// (specs/Services.antt) are what the service does to machine and host.
// Promise: laws alone. Where an assignment slot answers, the words behind the service do the source's step (specs/Assigning.antt); where the
// step is an error, the activity has ended as the source's (specs/Failing.antt); what lookups over words tell of that (specs/Found.antt), also
// where they read the machine's memory (specs/Whole.antt); and that what is met takes the arguments (specs/Fitting.antt).
#![tactic(auto)]

mod laws;

pub use laws::{
    assignments_answer_sends, assignments_found, errors_end_activities, fields_found,
    lookups_read_memory, messages_fit, methods_found, missing_found,
};
