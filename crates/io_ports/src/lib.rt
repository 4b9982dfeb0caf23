// What the program meets outside: a source of bytes, a sink for bytes, and files by name, as traits.
//
// Model: a source has bytes left, a sink has taken bytes, a name has bytes, each where the device tells it;
// and every device has a count of its faults that never falls (files have one for each name).
// Promise: a call fails only where that count rose in the call. What is read is what was told, in order and to its
// end; what is written is taken whole, or, after a failure, a front of it.
#![tactic(auto)]

mod copying;
mod memory;
mod named;
mod ports;
mod reading;
mod sure;
mod system;

pub use memory::{MemSink, MemSource};
pub use named::{MemFiles, NamedFile, SureFiles};
pub use ports::{Failed, Files, Sink, Source};
pub use reading::{ReadErr, read_all, read_file, write_all};
pub use sure::{SureSink, SureSource};
pub use system::{StdFiles, StdSink, StdSource};

#[cfg(test)]
mod tests;
