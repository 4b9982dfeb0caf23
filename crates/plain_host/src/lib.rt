// The host of plain code, and its services.
//
// Model: a `Hosting` is the machine with what its host keeps beside it; contracts see it as `Host` of plain_runs (specs/Host.antt there).
// Promise: each service does what its definition says (plain_runs and plain_unwinds, specs/Services.antt), and nothing else.
#![tactic(auto)]

mod beginning;
mod contexts;
mod hosting;
mod opening;
mod performing;
mod services;
mod switching;
mod units;
mod unwinding;

pub use hosting::Hosting;
pub use opening::open;
pub use performing::Applied;
