//! The words by which units know objects.
ghost use Rattle.std.specs.Prelude.{◌≡◌, ◌<◌, ◌^◌};
ghost use Rattle.self_terms.specs.Words.{IsSmall};
ghost use Rattle.plain_words.specs.Units.{object_word, datum_word, numbered, block_map};
ghost use Rattle.plain_words.specs.Translating.{AreWords, IsSmallDatum};

use self_terms::{BodyId, Datum, Row, word_of_int};

/// The words by which the units of a session know objects: the reference to each, by its number, and that to `nil`; the number of the map of
/// contexts; and for each body, in their order, that of the map of its blocks, where it is a block's.
#[derive(Drop)]
pub struct References {
    pub objects: Row<u32>,
    pub nil: u32,
    pub contexts: u32,
    pub blocks: Row<u32>,
}

// The word of a number.
pub(crate) fn numbered(number: u32) -> u32
    ensures { result ≡ numbered number }
{
    number.wrapping_mul(4)
}

impl References {
    // The reference to an object, or 0 where there is none of that number.
    pub(crate) fn word(&self, object: u32) -> u32
        ensures { result ≡ object_word self.now object }
    {
        match self.objects.as_slice().get(object as usize) {
            Some(word) => *word,
            None => 0,
        }
    }

    // The word of the map of the blocks of a body.
    pub(crate) fn block_map(&self, body: BodyId) -> u32
        ensures { result ≡ block_map self.now body.0 }
    {
        match self
            .blocks
            .as_slice()
            .get((body.0 as usize).saturating_sub(1))
        {
            Some(map) => numbered(*map),
            None => numbered(0),
        }
    }

    /// References are words of 32 bits.
    pub fn are_words(&self)
        ensures { AreWords self.now }
    {
        let _nil = self.nil;
        let objects = self.objects.as_slice();
        for k in 0..objects.len() {
            let _word = objects[k];
        }
    }

    /// The word of what a text says.
    pub fn datum(&self, datum: Datum) -> u32
        requires { IsSmallDatum datum }
        ensures { result ≡ datum_word self.now datum }
    {
        match datum {
            Datum::Integer(int) => word_of_int(int),
            Datum::Object(object) => self.word(object),
            Datum::Nil => self.nil,
        }
    }
}
