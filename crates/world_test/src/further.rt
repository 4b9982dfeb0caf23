// The names of a session.
ghost use Rattle.std.specs.Prelude.{◌≡◌, ◌+◌, ◌<◌, ◌≤◌, length, true, IfOk, OnOk};
ghost use Rattle.self_terms.specs.Names.{text_of, with_text};
ghost use Rattle.world_blocks.specs.Sessions.{session_texts, with_texts};
ghost use Rattle.world_test.specs.Further.{is_given, starts_fixed};

use crate::names::text_of;
use self_terms::{Name, Names};
use std::alloc::{AllocError, Global};

// Whether a number has this text.
fn is_given(names: &Names, text: &[u8], n: u32) -> bool
    ensures { result ≡ is_given text.now (text_of names.now n) }
{
    match text_of(names, n) {
        None => false,
        Some(found) => found == text,
    }
}

/// Whether the two names with fixed numbers stand first.
pub fn starts_fixed(names: &Names) -> bool
    ensures { result ≡ starts_fixed names.now }
{
    is_given(names, b"_IntAdd:", 1) && is_given(names, b"_IntSub:", 2)
}

// The same names once more.
fn copied(alloc: Global, names: &Names) -> Result<Names, AllocError>
    requires { length names.now ≤ 450000000 }
    ensures same { IfOk result (λ copy. starts_fixed names.now ≡ true → copy ≡ names.now) }
    ensures few { IfOk result (λ copy. length copy ≤ 2 + length names.now) }
{
    names.has_each_once();
    let mut copy = Names::open(alloc)?;
    for at in 2..names.len() {
        copy.name(names.text(Name(at as u32 + 1)))?;
    }
    Ok(copy)
}

// One name more.
fn add(names: &mut Names, text: &[u8]) -> Result<(), AllocError>
    requires { length names.old < 500000000 }
    ensures grows { OnOk result (names.new ≡ with_text names.old text.now) }
    ensures room { length names.new ≤ length names.old + 1 }
{
    names.name(text)?;
    Ok(())
}

// Those that a session has beside the names of a world.
fn add_texts(names: &mut Names) -> Result<(), AllocError>
    requires { length names.old ≤ 460000000 }
    ensures grows { OnOk result (names.new ≡ with_texts names.old session_texts) }
    ensures few { length names.new ≤ 500000000 }
{
    add(names, b"lobby")?;
    add(names, b"value")?;
    add(names, b"value:")?;
    add(names, b"value:With:")?;
    add(names, b"value:With:With:")?;
    add(names, b"value:With:With:With:")?;
    add(names, b"value:With:With:With:With:")?;
    Ok(())
}

/// The names of a world once more, and those that a session has behind them, which the text of a world may not have: `lobby`, and the messages that
/// evaluate blocks, of which a failed primitive sends one.
pub fn session_names(alloc: Global, names: &Names) -> Result<Names, AllocError>
    requires { length names.now ≤ 450000000 }
    ensures names { IfOk result (λ all. starts_fixed names.now ≡ true → all ≡ with_texts names.now session_texts) }
    ensures few { IfOk result (λ all. length all ≤ 500000000) }
{
    let mut all = copied(alloc, names)?;
    add_texts(&mut all)?;
    Ok(all)
}
