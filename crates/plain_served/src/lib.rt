// Service 1 in plain code against the source, where a lookup finds a method.
//
// Model: `refusal` (specs/Serving.antt) is what the service tests before it calls a method, over machine and host alone; `calls`
// (specs/Services.antt of plain_runs) is the call.
// Promise: laws alone. Where the test names an error, that is the source's step; else the call and the words there do the step.
#![tactic(auto)]

mod laws;

pub use laws::methods_are_served;
