// The lines about a world file and a script.
ghost use Rattle.std.specs.Prelude.{◌≡◌, ◌≢◌, ◌++◌, decimal, codes, IfOk, OnOk};
ghost use Rattle.session_text.specs.LineTexts.{refused_line};
ghost use Rattle.source_model.specs.Texts.{place_text};
ghost use Rattle.world_build.specs.Names.{core_text};
ghost use Rattle.world_build.specs.declared.refusals.BuildRefusal.TheVariants.{OutOfMemory as NoMemory};
ghost use Rattle.self_debugger.specs.WorldLines.{kind_text, refusal_line, read_line, build_line, ok_line};

use self_grammar::{ReadKind, ReadRefusal};
use self_terms::{OutOfMemory, Place};
use session_text::{Line, LineText};
use std::alloc::{AllocError, Global};
use world_build::{BuildRefusal, CoreName, World};

/// The line of a text that is no world.
pub fn read_line(alloc: Global, refusal: ReadRefusal) -> Result<Vec<u8>, OutOfMemory>
    ensures { IfOk result (λ line. line.items ≡ read_line refusal) }
{
    let place = Place {
        edit: 0,
        line: refusal.spot.line,
        column: refusal.spot.column,
    };
    refusal_line(alloc, kind_text(refusal.kind), place)
}

/// The line of a text whose world can't be built. Want of memory has none.
pub fn build_line(alloc: Global, refusal: BuildRefusal) -> Result<Vec<u8>, OutOfMemory>
    ensures line { IfOk result (λ line. line.items ≡ build_line refusal) }
    ensures refused { IfOk result (λ line. refusal ≢ NoMemory) }
{
    match refusal {
        BuildRefusal::NoSuchPath(place) => refusal_line(alloc, b"NoSuchPath", place),
        BuildRefusal::ParentNotObject(place) => refusal_line(alloc, b"ParentNotObject", place),
        BuildRefusal::MissingCore(name) => core_line(alloc, name),
        BuildRefusal::OutOfMemory => Err(AllocError),
    }
}

/// The line of a world: how many objects and bodies its text has, and its size.
pub fn ok_line(alloc: Global, world: &World) -> Result<Vec<u8>, OutOfMemory>
    ensures { IfOk result (λ line. line.items ≡ ok_line world.now) }
{
    let mut line = Vec::new(alloc);
    line.extend_from_slice(b"ok ")?;
    put_number(alloc, &mut line, world.objects() as u64)?;
    line.extend_from_slice(b" objects ")?;
    put_number(alloc, &mut line, world.bodies() as u64)?;
    line.extend_from_slice(b" bodies size ")?;
    put_number(alloc, &mut line, world.size() as u64)?;
    line.extend_from_slice(b"\n")?;
    Ok(line)
}

/// The line of a script whose line of this number is no command.
pub fn script_line(alloc: Global, number: u32) -> Result<Line, OutOfMemory>
    ensures { IfOk result (λ line. line ≡ refused_line number) }
{
    let mut line = Line::open(alloc)?;
    line.put(&LineText::ScriptRefused(number));
    Ok(line)
}

// The line of a world that is refused for this, at a place of its file.
fn refusal_line(alloc: Global, why: &[u8], place: Place) -> Result<Vec<u8>, OutOfMemory>
    ensures { IfOk result (λ line. line.items ≡ refusal_line why.now place) }
{
    let mut line = Vec::new(alloc);
    line.extend_from_slice(b"world refused ")?;
    line.extend_from_slice(why)?;
    line.extend_from_slice(b" at ")?;
    put_place(alloc, &mut line, place)?;
    line.extend_from_slice(b"\n")?;
    Ok(line)
}

// The line of a world without the core object of this name.
fn core_line(alloc: Global, name: CoreName) -> Result<Vec<u8>, OutOfMemory>
    ensures { IfOk result (λ line. line.items ≡ codes "world refused MissingCore " ++ core_text name ++ codes "\n") }
{
    let mut line = Vec::new(alloc);
    line.extend_from_slice(b"world refused MissingCore ")?;
    line.extend_from_slice(name.text().as_bytes())?;
    line.extend_from_slice(b"\n")?;
    Ok(line)
}

// What is wrong with a text.
fn kind_text(kind: ReadKind) -> &'static [u8]
    ensures { result.now ≡ kind_text kind }
{
    match kind {
        ReadKind::BadToken => b"BadToken",
        ReadKind::BadEscape => b"BadEscape",
        ReadKind::IntTooWide => b"IntTooWide",
        ReadKind::BadSyntax => b"BadSyntax",
        ReadKind::TooDeep => b"TooDeep",
        ReadKind::TooManyArgs => b"TooManyArgs",
        ReadKind::TooManyLocals => b"TooManyLocals",
        ReadKind::DuplicateSlot => b"DuplicateSlot",
        ReadKind::TooManyNodes => b"TooManyNodes",
    }
}

// The decimal digits of a number, at the end of a line.
fn put_number(alloc: Global, line: &mut Vec<u8>, number: u64) -> Result<(), OutOfMemory>
    ensures { OnOk result (line.new.items ≡ line.old.items ++ decimal number) }
{
    let digits = number.to_string(alloc)?;
    line.extend_from_slice(digits.as_bytes())
}

// A place, at the end of a line.
fn put_place(alloc: Global, line: &mut Vec<u8>, place: Place) -> Result<(), OutOfMemory>
    ensures { OnOk result (line.new.items ≡ line.old.items ++ place_text place) }
{
    if place.edit != 0 {
        line.extend_from_slice(b"e")?;
        put_number(alloc, line, place.edit as u64)?;
        line.extend_from_slice(b"/")?;
    }
    put_number(alloc, line, place.line as u64)?;
    line.extend_from_slice(b":")?;
    put_number(alloc, line, place.column as u64)
}
