// The bodies of the world of an accepted text are bodies that plain code runs (`IsRunnable` of plain_runs, specs/Sound.antt).
//
// Promise: a law alone. Of each body of such a world, and of the empty one that a number without a body stands for: its nodes take values that
// are there and end; its frames have room; its words fit their fields; and the objects that its nodes and initial contents name are there.
// It wants a text within the limits for which code can be made (`IsLimited` of specs/Limited.antt), as those of every text that is read are.
#![tactic(auto)]

mod laws;

pub use laws::{accepted_bodies_have_few_arguments, accepted_bodies_run};
