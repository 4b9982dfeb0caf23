// An emulator of the SPARC V8 subset of `sparc_insn`, over the memory of `sparc_store`.
//
// A machine is its memory, the registers in view, the older frames that are held in windows, the program counter and the next
// one, Y and the condition codes: the record `MachineState`, which contracts see as `state machine`. `effect` is the instruction
// table, one line an instruction. SAVE and RESTORE save and fill frames themselves, where an overflow or an underflow of the
// windows would trap to software.
// `Machine::step` does one line of it, and `Machine::run` so many, up to the first trap, which is told and left to the host.
// The condition of a step, `CanStep`, is the caller's to show. No memory is taken after `Machine::open`.
#![tactic(auto)]

mod alu;
mod event;
mod icc;
mod machine;
mod rows;
mod step;
#[cfg(test)]
mod tests;
mod work;

pub use event::{Event, MachineRun};
pub use icc::Icc;
pub use machine::Machine;
pub use rows::moves_windows;
