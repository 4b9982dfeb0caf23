// Activities that begin in plain code with an activation that has a context.
//
// Model: `begins_with_context` (specs/Spawns.antt) is what the host does to begin an activity of a method whose activations have contexts;
// `Began` (specs/Begins.antt of plain_begins) says that machine and host then stand for the state with the activity.
// Promise: laws alone, for a method of an object without arguments whose unit stands.
#![tactic(auto)]

mod laws;

pub use laws::activities_begin_with_contexts;
