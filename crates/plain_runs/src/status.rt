//! How activities stand.

use self_terms::{ErrorName, Place};

/// How an activity stands: its frames wait in its stack, the youngest where this begins and goes on, so many of them; or it has
/// answered with a word; or an error ended it, at a place. Of the current activity, while it runs, machine and registers tell.
#[derive(Clone, Copy, Debug, PartialEq, Eq)]
pub enum Status {
    Waiting(u32, u32, u32),
    Answered(u32),
    Failed(ErrorName, Place),
}
