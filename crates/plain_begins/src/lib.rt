// Activities that begin in plain code.
//
// Model: `begins` (specs/Services.antt of plain_runs) is what the host does to begin an activity of a method; `Began` (specs/Begins.antt) says
// that machine and host then stand for the state with the activity, whose one activation is at the poll of its first node.
// Promise: laws alone, for a method of an object without arguments and without a block literal of its own, whose unit stands.
#![tactic(auto)]

mod laws;

pub use laws::{activities_agree, activities_begin, raw_activities_begin};
