// The activations that the frames of a stack show stay, where windows spill, fill and are flushed.
//
// Model: `activations` reads frames off windows that are held and memory (frame_walk); a `Stack` is memory with the windows in view and held
// (sparc_store). specs/Moves.antt puts both together.
// Promise: laws alone. A stack whose frames are laid is sound; SAVE, RESTORE, `flush` and `take_up` leave what its frames show, and
// what those of each other stack do.
#![tactic(auto)]

mod laws;

pub use laws::{
    flush_keeps_frames, laid_stacks_are_sound, other_stacks_keep_frames, restore_keeps_frames,
    save_keeps_frames, stacks_stand_apart, take_up_keeps_frames,
};
