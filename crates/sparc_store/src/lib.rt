// The memory of the emulated SPARC V8 processor: words by address, in the regions for code, heap, control and four stacks.
//
// Its model is a map from addresses to words (`word_at`), and `byte_at` is a map to bytes over it, big-endian. A call that
// stores says what stands at its address, and that each other address keeps what it had; `frame_mut` lends words of one stack
// and says which words of memory a write through it leaves. All memory is taken at `Memory::open`.
#![tactic(auto)]

mod memory;
mod out_of_memory;
mod stacks;
mod windows;

pub use memory::Memory;
pub use out_of_memory::OutOfMemory;
pub use stacks::{
    answers_as_flat, flushes, has_one_depth, restores, saves, spares_others, stacks_may, takes_up,
    writes,
};
pub use windows::Windows;
