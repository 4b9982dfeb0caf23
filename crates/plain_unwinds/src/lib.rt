// Services 4 and 8 in plain code, where activations have contexts: activations end that aren't the youngest alone.
//
// Model: `fails_unmarked` and `unwinds` (specs/Services.antt) are what the services do to machine and host: the windows of the current activity
// are flushed, its frames walked in memory, and the frame marks of their contexts cleared (specs/Frames.antt).
// Promise: laws alone. After service 8 the activity has failed as the source's (specs/Failing.antt); after service 4 the home's caller goes on
// with the answer, or the activity has answered, as the source's (specs/Returning.antt).
#![tactic(auto)]

mod laws;

pub use laws::{activities_may_end, errors_end_activities, home_returns_unwind};
