// The world of a text, with its maps and words.
//
// Promise: `build` gives the world that the items of a text build, with exactly its maps and words, or the first refusal. Of each such
// world it is known that it fits and is whole, so that its words are a heap that stands for its objects (`put` of world_heap).
#![tactic(auto)]

mod building;

pub use building::build;
pub use world_heap::WorldImage;
