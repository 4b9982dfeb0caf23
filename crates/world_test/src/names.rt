// The texts of names, and how many arguments a message takes by its name.
ghost use Rattle.std.specs.Prelude.{◌≡◌, ◌≤◌, ◌==◌, ◌++◌, length, codes, count_by, option_map, is_some};
ghost use Rattle.self_terms.specs.Names.{text_of};
ghost use Rattle.source_model.specs.Names.{is_text, number_of, text_named};
ghost use Rattle.source_model.specs.Formed.{arity, is_letter};
ghost use Rattle.source_model.specs.Testing.{takes_test};

use self_terms::{Name, Names};

// A letter, or `_`.
fn is_letter(c: u8) -> bool
    ensures { result ≡ is_letter c }
{
    if c >= 97 {
        return c <= 122;
    }
    if c == 95 {
        return true;
    }
    if c >= 65 {
        return c <= 90;
    }
    false
}

// How many colons there are.
fn colons(text: &[u8]) -> usize
    ensures { result ≡ count_by (λ x. x == 58) text.now }
{
    text.iter().filter(|c| **c == b':').count()
}

/// How many arguments a message takes, by its name.
pub fn arity(text: &[u8]) -> usize
    ensures { result ≡ arity text.now }
{
    let Some(first) = text.first() else {
        return 0;
    };
    if is_letter(*first) {
        return colons(text);
    }
    1
}

/// The text of a number; none where no text has it.
pub fn text_of(names: &Names, n: u32) -> Option<&[u8]>
    ensures { option_map (λ t. t.now) result ≡ text_of names.now n }
{
    if n == 0 {
        return None;
    }
    if n as usize > names.len() {
        return None;
    }
    Some(names.text(Name(n)))
}

/// Whether a number has a text.
pub fn has_text(names: &Names, n: u32) -> bool
    ensures { result ≡ is_some (text_of names.now n) }
{
    text_of(names, n).is_some()
}

/// Whether the name of a number has a text, and a message of that name takes so many arguments.
pub fn takes_test(names: &Names, n: u32, args: usize) -> bool
    ensures { result ≡ takes_test names.now n args }
{
    match text_of(names, n) {
        None => false,
        Some(text) => arity(text) == args,
    }
}

// The text of a number; empty where no text has it.
fn text_named(names: &Names, n: u32) -> &[u8]
    ensures { result.now ≡ text_named names.now n }
{
    match text_of(names, n) {
        None => b"",
        Some(text) => text,
    }
}

// Whether a text is another with a colon behind it.
fn is_with_colon(text: &[u8], of: &[u8]) -> bool
    ensures { result ≡ is_text text.now (of.now ++ codes ":") }
{
    match text.split_last() {
        None => false,
        Some((last, front)) => *last == b':' && front == of,
    }
}

/// Whether the first number has the text of the second with a colon behind it.
pub fn assigns_name(names: &Names, setter: u32, name: u32) -> bool
    ensures { result ≡ is_text (text_named names.now setter) (text_named names.now name ++ codes ":") }
{
    is_with_colon(text_named(names, setter), text_named(names, name))
}

/// The number of a text among the names, from 1; 0 where it has none.
pub fn number_of(names: &Names, text: &[u8]) -> u32
    requires { length names.now ≤ 500000000 }
    ensures { result ≡ number_of names.now text.now }
{
    for at in 0..names.len() {
        let number = at as u32 + 1;
        if text == names.text(Name(number)) {
            return number;
        }
    }
    0
}
