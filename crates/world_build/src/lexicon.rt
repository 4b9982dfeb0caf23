// Names, with the numbers of those that a world must have.
ghost use Rattle.std.specs.Prelude.{◌≡◌, ◌++◌, ◌+◌, ◌<◌, ◌≤◌, ℕ, length, IfOk, OnOk, OnErr};
ghost use Rattle.self_terms.specs.Names.{with_text};
ghost use Rattle.self_grammar.specs.Parts.{parts_in};
ghost use Rattle.source_model.specs.Names.{number_of, text_named};
ghost use Rattle.world_build.specs.Names.{with_world_texts, lobby_text, core_text, joined, with_words, word_number};
ghost use Rattle.world_build.specs.Known.{IsNumber};

use crate::cores::CoreName;
use self_grammar::Words;
use self_terms::{Name, Names};
use std::alloc::{AllocError, Global};
use std::marker::Model;

// Contracts see the texts of the names.
#[derive(Drop)]
pub(crate) struct Lexicon {
    names: Names,
    lobby: u32,
    nil: u32,
    yes: u32,
    no: u32,
    integers: u32,
    strings: u32,
    vectors: u32,
    blocks: u32,
}

impl Model for Lexicon {
    ghost use Rattle.std.specs.Prelude.{List, ℕ};
    ghost use Rattle.world_build.specs.Known.{Knows};

    ghost Value = { List (List ℕ) };

    ghost view = { λ l. l.names };

    ghost invariant = { λ l. Knows l.names l.lobby l.nil l.yes l.no l.integers l.strings l.vectors l.blocks };
}

// The number of a text, which has a name from now on.
pub(crate) fn number(names: &mut Names, text: &[u8]) -> Result<u32, AllocError>
    requires { length names.old < 500000000 }
    ensures number { IfOk result (λ n. IsNumber names.new text.now n) }
    ensures grows { OnOk result (names.new ≡ with_text names.old text.now) }
    ensures room { length names.new ≤ length names.old + 1 }
    ensures same { OnErr result (names.new ≡ names.old) }
{
    let name = names.name(text)?;
    names.has_each_once();
    Ok(name.0)
}

impl Lexicon {
    // The names with those that a world must have.
    pub fn open(mut names: Names) -> Result<Lexicon, AllocError>
        requires { length names < 400000000 }
        ensures { IfOk result (λ lexicon. lexicon ≡ with_world_texts names) }
    {
        let lobby = number(&mut names, "lobby".as_bytes())?;
        let nil = number(&mut names, "nil".as_bytes())?;
        let yes = number(&mut names, "true".as_bytes())?;
        let no = number(&mut names, "false".as_bytes())?;
        let integers = number(&mut names, "integerTraits".as_bytes())?;
        let strings = number(&mut names, "stringTraits".as_bytes())?;
        let vectors = number(&mut names, "vectorTraits".as_bytes())?;
        let blocks = number(&mut names, "blockTraits".as_bytes())?;
        Ok(Lexicon {
            names,
            lobby,
            nil,
            yes,
            no,
            integers,
            strings,
            vectors,
            blocks,
        })
    }

    pub fn into_names(self) -> Names
        ensures { result ≡ self }
    {
        let Lexicon {
            names,
            lobby: _,
            nil: _,
            yes: _,
            no: _,
            integers: _,
            strings: _,
            vectors: _,
            blocks: _,
        } = self;
        names
    }

    // The number of `lobby`.
    pub fn lobby(&self) -> u32
        ensures { result ≡ number_of self.now lobby_text }
    {
        self.lobby
    }

    pub fn core(&self, name: CoreName) -> u32
        ensures { result ≡ number_of self.now (core_text name) }
    {
        match name {
            CoreName::Nil => self.nil,
            CoreName::True => self.yes,
            CoreName::False => self.no,
            CoreName::IntegerTraits => self.integers,
            CoreName::StringTraits => self.strings,
            CoreName::VectorTraits => self.vectors,
            CoreName::BlockTraits => self.blocks,
        }
    }

    // The text of a name; no bytes where it wasn't given.
    fn text(&self, name: u32) -> &[u8]
        ensures { result.now ≡ text_named self.now name }
    {
        if name == 0 || name as usize > self.names.len() {
            return b"";
        }
        self.names.text(Name(name))
    }

    fn put(&self, text: &mut Vec<u8>, part: u32) -> Result<(), AllocError>
        ensures { OnOk result (text.new.items ≡ text.old.items ++ text_named self.now part) }
    {
        text.extend_from_slice(self.text(part))?;
        Ok(())
    }

    // The texts of a name's parts, one behind the other.
    fn joined(&self, alloc: Global, words: Words) -> Result<Vec<u8>, AllocError>
        ensures { IfOk result (λ text. text.items ≡ joined self.now (parts_in words)) }
    {
        let mut text = Vec::new(alloc);
        match words {
            Words::One(a) => {
                self.put(&mut text, a)?;
                Ok(text)
            }
            Words::Two(a, b) => {
                self.put(&mut text, a)?;
                self.put(&mut text, b)?;
                Ok(text)
            }
            Words::Three(a, b, c) => {
                self.put(&mut text, a)?;
                self.put(&mut text, b)?;
                self.put(&mut text, c)?;
                Ok(text)
            }
            Words::Four(a, b, c, d) => {
                self.put(&mut text, a)?;
                self.put(&mut text, b)?;
                self.put(&mut text, c)?;
                self.put(&mut text, d)?;
                Ok(text)
            }
            Words::Five(a, b, c, d, e) => {
                self.put(&mut text, a)?;
                self.put(&mut text, b)?;
                self.put(&mut text, c)?;
                self.put(&mut text, d)?;
                self.put(&mut text, e)?;
                Ok(text)
            }
        }
    }

    // The number of a name in parts, which is one name from now on.
    pub fn words(&mut self, alloc: Global, words: Words) -> Result<u32, AllocError>
        requires { length self.old < 500000000 }
        ensures number { IfOk result (λ n. n ≡ word_number self.old words) }
        ensures grows { OnOk result (self.new ≡ with_words self.old words) }
    {
        let text = self.joined(alloc, words)?;
        number(&mut self.names, text.as_slice())
    }
}
