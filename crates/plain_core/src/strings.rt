//! The strings that every world has: of each error, and of each primitive.
ghost use Rattle.std.specs.Prelude.{◌≡◌, ◌≤◌, ◌+◌, option_map, slice_get, Some};
ghost use Rattle.source_model.specs.Names.{text_named};
ghost use Rattle.source_model.specs.Primitives.{error_string, row_of, row_string};
ghost use Rattle.plain_prims.specs.Rows.{row_number};
ghost use Rattle.plain_host.specs.Hosted.{host};
ghost use Rattle.plain_core.specs.Language.{KnowsCore};

use crate::language::Language;
use plain_host::Hosting;
use self_terms::{ErrorName, Name};
use source_model::Primitive;

// The place of an error's string among them.
fn error_string(error: ErrorName) -> u32
    ensures is { result ≡ error_string error }
    ensures small { result ≤ 5 }
{
    match error {
        ErrorName::BadType => 0,
        ErrorName::Overflow => 1,
        ErrorName::DivisionByZero => 2,
        ErrorName::BadIndex => 3,
        ErrorName::BadSize => 4,
        _ => 5,
    }
}

// The number of a primitive's row in the table, from 0.
fn row_number(prim: Primitive) -> u32
    ensures is { result ≡ row_number prim }
    ensures small { result ≤ 18 }
{
    match prim {
        Primitive::IntAdd => 0,
        Primitive::IntSub => 1,
        Primitive::IntMul => 2,
        Primitive::IntDiv => 3,
        Primitive::IntMod => 4,
        Primitive::IntAnd => 5,
        Primitive::IntOr => 6,
        Primitive::IntXor => 7,
        Primitive::IntLT => 8,
        Primitive::IntLE => 9,
        Primitive::IntEQ => 10,
        Primitive::Eq => 11,
        Primitive::Clone => 12,
        Primitive::VectorNew => 13,
        Primitive::Size => 14,
        Primitive::At => 15,
        Primitive::AtPut => 16,
        Primitive::StringPrint => 17,
        Primitive::IntPrint => 18,
    }
}

// The place of a primitive's string among them, or of that of none.
fn row_string(prim: Option<Primitive>) -> u32
    ensures is { result ≡ row_string (option_map row_number prim) }
    ensures small { result ≤ 25 }
{
    match prim {
        Some(prim) => 6 + row_number(prim),
        None => 25,
    }
}

// The word of the string at a place among them.
fn string_at(hosting: &Hosting, language: &Language, place: u32) -> u32
    requires core { KnowsCore (host hosting.now) language.now }
    requires small { place ≤ 25 }
    ensures { slice_get (host hosting.now).references.objects (language.now.fixed + place) ≡ Some result }
{
    match hosting.reference(language.fixed() + place) {
        Some(word) => word,
        None => unreachable!(),
    }
}

/// The word of the string of an error.
pub(crate) fn error_word(hosting: &Hosting, language: &Language, error: ErrorName) -> u32
    requires { KnowsCore (host hosting.now) language.now }
    ensures { slice_get (host hosting.now).references.objects (language.now.fixed + error_string error) ≡ Some result }
{
    string_at(hosting, language, error_string(error))
}

/// The word of the string of the primitive of a name with so many arguments.
pub(crate) fn primitive_word(hosting: &Hosting, language: &Language, name: Name, args: u8) -> u32
    requires { KnowsCore (host hosting.now) language.now }
    ensures { slice_get (host hosting.now).references.objects (language.now.fixed + row_string (row_of (text_named language.now.names name.0) args)) ≡ Some result }
{
    let row = row_string(language.primitive(name, args));
    string_at(hosting, language, row)
}
