//! What the host knows of the language in a session: its names, which of them are those of primitives and which is that of the message to a handler, the
//! objects that the language itself knows, and where the strings stand that every world has.
ghost use Rattle.std.specs.Prelude.{◌≡◌, ◌<◌, ◌+◌, ◌^◌, codes, map, slice_get, IfOk};
ghost use Rattle.source_model.specs.Names.{number_of, text_named};
ghost use Rattle.prim_table.specs.Kinds.{args_of, kind_of};
ghost use Rattle.prim_table.specs.Named.{prim_named};
ghost use Rattle.plain_prims.specs.Rows.{primitive_of, taking};

use prim_table::prim_of;
use self_terms::{Name, Names, OutOfMemory};
use source_model::{Core, Primitive};
use std::alloc::{AllocError, Global};
use std::marker::Model;

// No session has more names.
const MOST_NAMES: usize = 1 << 30;

/// The names of a session, the objects that the language knows, the number of the first of the strings that every world has, and the name of the message
/// that a failed primitive sends to its handler; and for each name its primitive, where it has one.
#[derive(Drop)]
pub struct Language {
    names: Names,
    core: Core,
    fixed: u32,
    failure: Name,
    rows: Vec<Option<Primitive>>,
}

impl Model for Language {
    ghost use Rattle.std.specs.Prelude.{◌≡◌, ◌<◌, ◌+◌, ◌^◌, map};
    ghost use Rattle.prim_table.specs.Named.{prim_named};
    ghost use Rattle.plain_core.specs.Language.{Language as Known};

    ghost Value = { Known };

    ghost view = { λ l. record { names = l.names; core = l.core; fixed = l.fixed; failure = l.failure.0 } };

    ghost invariant = { λ l. (l.rows.items ≡ map prim_named l.names) × (l.fixed + 26 < 2 ^ 32) };
}

// How many arguments a primitive takes.
fn args_of(prim: Primitive) -> u8
    ensures { result ≡ args_of (kind_of prim) }
{
    match prim {
        Primitive::AtPut => 2,
        Primitive::Clone => 0,
        Primitive::VectorNew => 0,
        Primitive::Size => 0,
        Primitive::StringPrint => 0,
        Primitive::IntPrint => 0,
        _ => 1,
    }
}

// A primitive, where it takes so many arguments.
fn taking(args: u8, prim: Option<Primitive>) -> Option<Primitive>
    ensures { result ≡ taking args prim }
{
    match prim {
        None => None,
        Some(prim) => {
            if args_of(prim) == args {
                Some(prim)
            } else {
                None
            }
        }
    }
}

// The primitives of names.
fn rows_of(alloc: Global, names: &Names) -> Result<Vec<Option<Primitive>>, OutOfMemory>
    ensures { IfOk result (λ rows. rows.items ≡ map prim_named names.now) }
{
    let count = names.len();
    if count > MOST_NAMES {
        return Err(AllocError);
    }
    let mut rows = Vec::with_capacity(alloc, count)?;
    for at in 0..count {
        rows.push_reserved(prim_of(names, Name(at as u32 + 1)));
    }
    Ok(rows)
}

// The primitive at a number; none past the last.
fn row_at(rows: &Vec<Option<Primitive>>, at: usize) -> Option<Option<Primitive>>
    ensures { result ≡ slice_get rows.now.items at }
{
    rows.get(at).copied()
}

impl Language {
    /// The language of a session with these names, which knows these objects and has the strings of every world from this number on; `failure` is the name
    /// of the message that a failed primitive sends to its handler.
    pub fn open(
        alloc: Global,
        names: Names,
        core: Core,
        fixed: u32,
        failure: Name,
    ) -> Result<Language, OutOfMemory>
        requires strings { fixed + 26 < 2 ^ 32 }
        requires told { failure.0 ≡ number_of names (codes "value:With:") }
        ensures { IfOk result (λ l. l ≡ record { names = names; core = core; fixed = fixed; failure = number_of names (codes "value:With:") }) }
    {
        let rows = rows_of(alloc, &names)?;
        Ok(Language {
            names,
            core,
            fixed,
            failure,
            rows,
        })
    }

    /// The names.
    pub fn names(&self) -> &Names
        ensures { result.now ≡ self.now.names }
    {
        &self.names
    }

    /// The objects that the language knows.
    pub fn core(&self) -> Core
        ensures { result ≡ self.now.core }
    {
        self.core
    }

    /// The number of the first of the strings that every world has.
    pub fn fixed(&self) -> u32
        ensures is { result ≡ self.now.fixed }
        ensures strings { result + 26 < 2 ^ 32 }
    {
        self.fixed
    }

    /// The name of the message that a failed primitive sends to its handler.
    pub fn failure(&self) -> Name
        ensures { result.0 ≡ self.now.failure }
    {
        self.failure
    }

    /// The primitive of a name with so many arguments.
    pub fn primitive(&self, name: Name, args: u8) -> Option<Primitive>
        ensures { result ≡ primitive_of (text_named self.now.names name.0) args }
    {
        if name.0 == 0 {
            return None;
        }
        match row_at(&self.rows, name.0 as usize - 1) {
            None => None,
            Some(prim) => taking(args, prim),
        }
    }
}
