// The numbers of names in parts.
ghost use Rattle.std.specs.Prelude.{◌≡◌, ◌++◌, ◌<◌, length, IfOk, OnOk};
ghost use Rattle.self_terms.specs.Names.{with_text};
ghost use Rattle.self_grammar.specs.Parts.{parts_in};
ghost use Rattle.source_model.specs.Names.{number_of, text_named};
ghost use Rattle.world_build.specs.Names.{joined, with_words, word_number};

use self_grammar::Words;
use self_terms::{Name, Names};
use std::alloc::{AllocError, Global};

// The number of a text, which has a name from now on.
fn number(names: &mut Names, text: &[u8]) -> Result<u32, AllocError>
    requires { length names.old < 500000000 }
    ensures number { IfOk result (λ n. n ≡ number_of names.new text.now) }
    ensures grows { OnOk result (names.new ≡ with_text names.old text.now) }
{
    let name = names.name(text)?;
    names.has_each_once();
    Ok(name.0)
}

// The text of a name; no bytes where it wasn't given.
fn text(names: &Names, name: u32) -> &[u8]
    ensures { result.now ≡ text_named names.now name }
{
    if name == 0 || name as usize > names.len() {
        return b"";
    }
    names.text(Name(name))
}

fn put(names: &Names, joined: &mut Vec<u8>, part: u32) -> Result<(), AllocError>
    ensures { OnOk result (joined.new.items ≡ joined.old.items ++ text_named names.now part) }
{
    joined.extend_from_slice(text(names, part))?;
    Ok(())
}

// The texts of a name's parts, one behind the other.
fn joined(alloc: Global, names: &Names, words: Words) -> Result<Vec<u8>, AllocError>
    ensures { IfOk result (λ text. text.items ≡ joined names.now (parts_in words)) }
{
    let mut text = Vec::new(alloc);
    match words {
        Words::One(a) => {
            put(names, &mut text, a)?;
            Ok(text)
        }
        Words::Two(a, b) => {
            put(names, &mut text, a)?;
            put(names, &mut text, b)?;
            Ok(text)
        }
        Words::Three(a, b, c) => {
            put(names, &mut text, a)?;
            put(names, &mut text, b)?;
            put(names, &mut text, c)?;
            Ok(text)
        }
        Words::Four(a, b, c, d) => {
            put(names, &mut text, a)?;
            put(names, &mut text, b)?;
            put(names, &mut text, c)?;
            put(names, &mut text, d)?;
            Ok(text)
        }
        Words::Five(a, b, c, d, e) => {
            put(names, &mut text, a)?;
            put(names, &mut text, b)?;
            put(names, &mut text, c)?;
            put(names, &mut text, d)?;
            put(names, &mut text, e)?;
            Ok(text)
        }
    }
}

// The number of a name in parts, which is one name from now on.
pub(crate) fn words(alloc: Global, names: &mut Names, words: Words) -> Result<u32, AllocError>
    requires { length names.old < 500000000 }
    ensures number { IfOk result (λ n. n ≡ word_number names.old words) }
    ensures grows { OnOk result (names.new ≡ with_words names.old words) }
{
    let text = joined(alloc, names, words)?;
    number(names, text.as_slice())
}
