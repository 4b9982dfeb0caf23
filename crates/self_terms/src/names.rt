// Names, and the numbers of those that the system itself knows.
ghost use Rattle.std.specs.Prelude.{◌≡◌, ◌<◌, ◌≤◌, length, codes, [], ◌∷◌, IfOk, OnOk, OnErr, Some};
ghost use Rattle.self_terms.specs.Names.{HasEachOnce, text_of, with_text};

use indexmap::IndexSet;
use std::alloc::{AllocError, Global};
use std::marker::Model;

/// The number of a text; equal texts have equal numbers. No text has the number 0.
#[derive(Clone, Copy, PartialEq, Eq, Debug)]
pub struct Name(pub u32);

/// `_IntAdd:`
pub const INT_ADD: Name = Name(1);

/// `_IntSub:`
pub const INT_SUB: Name = Name(2);

/// The texts that were given a name, in the order of their numbers from 1. Contracts see the list of these texts.
#[derive(Drop)]
pub struct Names {
    texts: IndexSet<Vec<u8>>,
    alloc: Global,
}

impl Model for Names {
    ghost use Rattle.std.specs.Prelude.{List, ℕ, map};

    ghost Value = { List (List ℕ) };

    ghost view = { λ n. map (λ v. v.items) n.texts.keys };
}

impl Names {
    /// The names with fixed numbers: `_IntAdd:` is 1, the number of `INT_ADD`, and `_IntSub:` 2, that of `INT_SUB`.
    pub fn open(alloc: Global) -> Result<Names, AllocError>
        ensures names { IfOk result (λ names. names ≡ codes "_IntAdd:" ∷ codes "_IntSub:" ∷ []) }
        ensures add { IfOk result (λ names. text_of names INT_ADD.0 ≡ Some (codes "_IntAdd:")) }
        ensures sub { IfOk result (λ names. text_of names INT_SUB.0 ≡ Some (codes "_IntSub:")) }
    {
        let mut names = Names {
            texts: IndexSet::new(alloc),
            alloc,
        };
        names.name("_IntAdd:".as_bytes())?;
        names.name("_IntSub:".as_bytes())?;
        Ok(names)
    }

    /// The name of a text: its own if it has one, else the next number. After want of memory the names are as they were.
    pub fn name(&mut self, text: &[u8]) -> Result<Name, AllocError>
        requires { length self.old < 500000000 }
        ensures number { IfOk result (λ name. text_of self.new name.0 ≡ Some text.now) }
        ensures grows { OnOk result (self.new ≡ with_text self.old text.now) }
        ensures same { OnErr result (self.new ≡ self.old) }
    {
        let text = text.to_vec(self.alloc)?;
        let Ok((at, _)) = self.texts.insert_full(text) else {
            return Err(AllocError);
        };
        Ok(Name(at as u32 + 1))
    }

    /// The text of a name that was given.
    pub fn text(&self, name: Name) -> &[u8]
        requires given { 0 < name.0 }
        requires within { name.0 ≤ length self.now }
        ensures { text_of self.now name.0 ≡ Some result.now }
    {
        let texts = self.texts.as_slice();
        &texts[name.0 as usize - 1]
    }

    /// How many texts were given a name.
    pub fn len(&self) -> usize
        ensures { result ≡ length self.now }
    {
        self.texts.len()
    }

    /// No text has two names.
    pub fn has_each_once(&self)
        ensures { HasEachOnce self.now }
    {
        let _texts = self.texts.as_slice();
    }
}

#[cfg(test)]
mod tests {
    use super::*;

    #[test]
    fn equal_texts_have_one_name(rt: HostRuntime) {
        let mut names = Names::open(rt.alloc()).expect(&rt, "room");
        let print = names.name("print".as_bytes()).expect(&rt, "room");
        let add = names.name("_IntAdd:".as_bytes()).expect(&rt, "room");
        assert!(rt; print == Name(3));
        assert!(rt; add == INT_ADD);
    }
}
