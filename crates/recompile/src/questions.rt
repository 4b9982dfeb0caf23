// Questions to an advisor, its answers, and what it is told.
use self_terms::{BodyId, MapId};

/// A question to an advisor.
#[derive(Clone, Copy, PartialEq, Eq, Debug)]
pub enum Ask {
    /// Whether to compile an optimised unit of this body for receivers of this map; it has so many nodes.
    Unit {
        body: BodyId,
        map: MapId,
        nodes: u32,
    },
    /// Whether to inline the send at this node of this body, in a scope of this depth (0 is the root's). Its site lists so
    /// many maps: 0 to 8, and 9 where there are more than the list holds. `sure` where the target follows from what is known.
    Send {
        body: BodyId,
        node: u32,
        depth: u8,
        maps: u8,
        sure: bool,
    },
}

/// The answer to a question.
#[derive(Clone, Copy, PartialEq, Eq, Debug)]
pub enum Advice {
    Yes,
    No,
}

/// What became of a unit.
#[derive(Clone, Copy, PartialEq, Eq, Debug)]
pub enum Note {
    /// The body's unit was installed, and has so many words.
    Installed { body: BodyId, words: u32 },
    /// There was no room for the body's unit.
    NoRoom { body: BodyId },
    /// The body's unit was discarded.
    Discarded { body: BodyId },
    /// The body's unit came to a case that was left out of it, at this node.
    Uncommon { body: BodyId, node: u32 },
    /// A frame of the body's unit was turned into frames of plain code.
    Collapsed { body: BodyId },
}

/// A question and its answer.
#[derive(Clone, Copy, PartialEq, Eq, Debug)]
pub struct Asked {
    pub ask: Ask,
    pub advice: Advice,
}
