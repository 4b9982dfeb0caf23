// The terms that all layers share: names, nodes and their places, values, bodies, tagged words, and lists of them.
//
// A `Name` stands for a text: contracts see `Names` as the list of the texts that were given a name so far, and equal
// texts have one name. A `Word` is an integer times 4 or an address plus 1; both ways between integers and words are exact.
// A `Node` is one step of a body in evaluation order. A `Body` has nodes, their places, and its locals, arguments first; bodies
// have numbers from 1. Lists are small types over `Vec` that contracts see as lists.
#![tactic(auto)]

mod bodies;
mod errors;
mod lists;
mod locals;
mod names;
mod nodes;
mod values;
mod words;

pub use bodies::{Body, BodyList, Local};
pub use errors::ErrorName;
pub use lists::{ByteList, Deps, NameList, NodeList, PlaceList, Row};
pub use names::{INT_ADD, INT_SUB, Name, Names};
pub use nodes::{Node, Place, Selector};
pub use values::{BodyId, Datum, Dep, MapId, Value};
pub use words::{Word, int_of_word, is_int, word_of_int, words_are_integers};

/// Want of memory: the one answer that no clause ties to a cause.
pub type OutOfMemory = std::alloc::AllocError;
