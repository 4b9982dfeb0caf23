// The reader of worlds and method slots: bytes in, the items of a text or the first refusal and its place out.
//
// Model: a text is the list of its signs (`specs/Signs.antt` of self_signs); what it says, and where it is refused, are the
// definitions of self_grammar. The reader is a machine that takes one sign after the other, with a stack of what is open
// (reader_states); code_reader, slot_reader and contents_reader have what a sign does.
#![tactic(auto)]

mod reading;
mod settling;
mod stops;
mod texts;
mod turning;

pub use stops::ReadStop;
pub use texts::{LIMITS, MethodSlot, WorldTree, read_slot, read_world};
