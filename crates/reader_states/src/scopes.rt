// A list of slots while it is read.
ghost use Rattle.std.specs.Prelude.{◌≡◌, ◌∷◌, [], ℕ, IfOk, OnOk, length};
ghost use Rattle.self_grammar.specs.Parts.{parts_in};
ghost use Rattle.self_grammar.specs.Scopes.{scope, with_name, has, named, with_argument, with_local, not_plain, too_many_arguments, too_many_locals, late_locals};
ghost use Rattle.reader_states.specs.Owners.{owner_in, has_name};
ghost use Rattle.self_grammar.specs.Counts.{when, there};
ghost use Rattle.self_grammar.specs.declared.signs.ReadKind.TheVariants as kind;
ghost use Rattle.reader_states.specs.Turns.{listed};

use indexmap::IndexSet;
use self_grammar::{Breach, Limits, ReadKind, Spot, Words};
use std::alloc::{AllocError, Global};
use std::marker::Model;

/// Whose slots they are: a world's or an object's, those of what may yet be an object or a method, or surely a method's
/// or block's.
#[derive(Clone, Copy, PartialEq, Eq)]
pub enum Owner {
    Holder,
    Either,
    Activation,
}

// Names in parts, each once.
#[derive(Drop)]
pub(crate) struct NameSet {
    names: IndexSet<Vec<u32>>,
    alloc: Global,
}

impl Model for NameSet {
    ghost use Rattle.std.specs.Prelude.{List, ℕ, map};

    ghost Value = { List (List ℕ) };

    ghost view = { λ s. map (λ v. v.items) s.names.keys };
}

// The parts of a name, as a list.
fn list_of(alloc: Global, words: Words) -> Result<Vec<u32>, AllocError>
    ensures { IfOk result (λ list. list.items ≡ parts_in words) }
{
    let mut list = Vec::new(alloc);
    match words {
        Words::One(a) => {
            list.push(a)?;
        }
        Words::Two(a, b) => {
            list.push(a)?;
            list.push(b)?;
        }
        Words::Three(a, b, c) => {
            list.push(a)?;
            list.push(b)?;
            list.push(c)?;
        }
        Words::Four(a, b, c, d) => {
            list.push(a)?;
            list.push(b)?;
            list.push(c)?;
            list.push(d)?;
        }
        Words::Five(a, b, c, d, e) => {
            list.push(a)?;
            list.push(b)?;
            list.push(c)?;
            list.push(d)?;
            list.push(e)?;
        }
    }
    Ok(list)
}

impl NameSet {
    // No names. Takes no memory.
    fn open(alloc: Global) -> NameSet
        ensures { result ≡ [] }
    {
        NameSet {
            names: IndexSet::new(alloc),
            alloc,
        }
    }

    // Whether the name is there already; from now on it is.
    fn add(&mut self, words: Words) -> Result<bool, AllocError>
        ensures again { IfOk result (λ again. again ≡ has_name self.old (parts_in words)) }
        ensures names { OnOk result (self.new ≡ with_name self.old (parts_in words)) }
    {
        let list = list_of(self.alloc, words)?;
        let Ok((_, new)) = self.names.insert_full(list) else {
            return Err(AllocError);
        };
        Ok(!new)
    }
}

// The names that a list has, the arguments and the places of the other slots of a method that it may be, whether all of
// them are slots that a method may have, and the first local beyond the limit.
#[derive(Drop)]
struct Entries {
    owner: Owner,
    names: NameSet,
    arguments: Vec<u32>,
    locals: Vec<Spot>,
    plain: bool,
    beyond: Option<Spot>,
}

impl Model for Entries {
    ghost use Rattle.std.specs.Prelude.{length};
    ghost use Rattle.self_grammar.specs.Scopes.{Scope as Slots};
    ghost use Rattle.reader_states.specs.Owners.{owner_in};

    ghost Value = { Slots };

    ghost view = { λ s. record {
      owner = owner_in s.owner;
      names = s.names;
      arguments = length s.arguments.items;
      locals = length s.locals.items;
      plain = s.plain;
      beyond = s.beyond;
    } };
}

impl Entries {
    // No slots yet. Takes no memory.
    fn open(alloc: Global, owner: Owner) -> Entries
        ensures { result ≡ scope (owner_in owner) }
    {
        Entries {
            owner,
            names: NameSet::open(alloc),
            arguments: Vec::new(alloc),
            locals: Vec::new(alloc),
            plain: true,
            beyond: None,
        }
    }

    // One more name; answers whether it was there already.
    fn add(&mut self, words: Words) -> Result<bool, AllocError>
        ensures again { IfOk result (λ again. again ≡ has self.old (parts_in words)) }
        ensures named { OnOk result (self.new ≡ named (parts_in words) self.old) }
    {
        self.names.add(words)
    }

    // One more argument; answers whether its name was there already.
    fn add_argument(&mut self, name: u32) -> Result<bool, AllocError>
        ensures again { IfOk result (λ again. again ≡ has self.old (name ∷ [])) }
        ensures named { OnOk result (self.new ≡ with_argument (name ∷ []) self.old) }
    {
        self.arguments.push(name)?;
        self.names.add(Words::One(name))
    }

    // One more slot that is no argument, which begins there.
    fn add_local(&mut self, limits: Limits, spot: Spot) -> Result<(), AllocError>
        ensures { OnOk result (self.new ≡ with_local limits spot self.old) }
    {
        let count = self.locals.len();
        if self.beyond.is_none() && count >= limits.locals as usize {
            self.beyond = Some(spot);
        }
        self.locals.push(spot)?;
        Ok(())
    }

    // One more local is too many, where this is known at once.
    fn too_many_locals(&self, limits: Limits) -> Option<Breach>
        ensures { listed result ≡ too_many_locals limits self.now }
    {
        if self.owner != Owner::Activation || self.locals.len() < limits.locals as usize {
            return None;
        }
        Some(Breach {
            kind: ReadKind::TooManyLocals,
            place: None,
        })
    }

    // Too many locals of what turns out to be a method.
    fn late_locals(&self) -> Option<Breach>
        ensures { listed result ≡ late_locals self.now }
    {
        if self.owner == Owner::Activation {
            return None;
        }
        let Some(spot) = self.beyond else {
            return None;
        };
        Some(Breach {
            kind: ReadKind::TooManyLocals,
            place: Some(spot),
        })
    }
}

/// A list of slots: the names that it has, the arguments and the places of the other slots of a method that it may be,
/// whether all of them are slots that a method may have, and the first local beyond the limit. It lies on the heap, so that
/// what is open moves by a word.
#[derive(Drop)]
pub struct Scope {
    entries: Box<Entries>,
}

impl Model for Scope {
    ghost use Rattle.self_grammar.specs.Scopes.{Scope as Slots};

    ghost Value = { Slots };

    ghost view = { λ s. s.entries.value };
}

impl Scope {
    /// No slots yet.
    pub fn open(alloc: Global, owner: Owner) -> Result<Scope, AllocError>
        ensures { IfOk result (λ s. s ≡ scope (owner_in owner)) }
    {
        let Ok(entries) = Box::new(alloc, Entries::open(alloc, owner)) else {
            return Err(AllocError);
        };
        Ok(Scope { entries })
    }

    /// One more name; answers whether it was there already.
    pub fn add(&mut self, words: Words) -> Result<bool, AllocError>
        ensures again { IfOk result (λ again. again ≡ has self.old (parts_in words)) }
        ensures named { OnOk result (self.new ≡ named (parts_in words) self.old) }
    {
        self.entries.add(words)
    }

    /// One more argument; answers whether its name was there already.
    pub fn add_argument(&mut self, name: u32) -> Result<bool, AllocError>
        ensures again { IfOk result (λ again. again ≡ has self.old (name ∷ [])) }
        ensures named { OnOk result (self.new ≡ with_argument (name ∷ []) self.old) }
    {
        self.entries.add_argument(name)
    }

    /// One more slot that is no argument, which begins there.
    pub fn add_local(&mut self, limits: Limits, spot: Spot) -> Result<(), AllocError>
        ensures { OnOk result (self.new ≡ with_local limits spot self.old) }
    {
        self.entries.add_local(limits, spot)
    }

    /// One of them is a slot that no method has.
    pub fn mark_object(&mut self)
        ensures { self.new ≡ not_plain self.old }
    {
        self.entries.plain = false;
    }

    /// How many arguments there are.
    pub fn arguments(&self) -> usize
        ensures { result ≡ self.now.arguments }
    {
        self.entries.arguments.len()
    }

    /// Whether all of them are slots that a method may have.
    pub fn is_plain(&self) -> bool
        ensures { result ≡ self.now.plain }
    {
        self.entries.plain
    }

    /// One more argument is too many.
    pub fn too_many_arguments(&self, limits: Limits) -> Option<Breach>
        ensures { listed result ≡ too_many_arguments limits self.now.arguments }
    {
        too_many_arguments(limits, self.arguments())
    }

    /// One more local is too many, where this is known at once.
    pub fn too_many_locals(&self, limits: Limits) -> Option<Breach>
        ensures { listed result ≡ too_many_locals limits self.now }
    {
        self.entries.too_many_locals(limits)
    }

    /// Too many locals of what turns out to be a method.
    pub fn late_locals(&self) -> Option<Breach>
        ensures { listed result ≡ late_locals self.now }
    {
        self.entries.late_locals()
    }
}

/// One argument or part more than so many is too many.
pub fn too_many_arguments(limits: Limits, count: usize) -> Option<Breach>
    ensures { listed result ≡ too_many_arguments limits count }
{
    if count < limits.arguments as usize {
        return None;
    }
    Some(Breach {
        kind: ReadKind::TooManyArgs,
        place: None,
    })
}

/// A rule that is broken where this holds: a name stands in its list again, there.
pub fn duplicate(again: bool, spot: Spot) -> Option<Breach>
    ensures { listed result ≡ when again (there kind.DuplicateSlot spot) }
{
    if !again {
        return None;
    }
    Some(Breach {
        kind: ReadKind::DuplicateSlot,
        place: Some(spot),
    })
}
