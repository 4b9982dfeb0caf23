// What holds of the world of every accepted text (`specs/Accepted.antt`), so that its words are a heap that stands for it.
#![tactic(auto)]

mod accepted;
mod laws;

pub use accepted::image_of_text;
pub use laws::{accepted_worlds_are_modest, accepted_worlds_are_whole};
