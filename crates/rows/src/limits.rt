// Worlds that meet a limit, and worlds that pass one by one.
//
// A table is one text: a line for each row, whose fields `;` parts. A row makes a whole world file: its front, its piece
// so many times, its middle, its closing piece as many times, and its tail. In a field `~` stands for a newline; the `#`s
// of a piece stand for the digits of its turn, from 0. The last field is the line of the check, behind `world refused `
// or behind `ok `. None of the refused worlds has all core objects, so that what keeps the limits is refused for one.
//
// With the checks of `rt try --test` the sizes and the lengths take minutes: it needs `--seconds 600`.

use crate::tests::{CHECK, call, field};
use std::alloc::{AllocError, Global};
use std::test::Fail;

// Open parentheses, brackets and keyword messages.
const NESTING: &str = "\
m = ;(;64;3;);.;MissingCore nil
m = ;(;65;;;;TooDeep at 1:69
m = ( ;[;63;3;]; ).;MissingCore nil
m = ( ;[;64;;;;TooDeep at 1:70
m = ( ;a: ;63;3 ).;;;MissingCore nil
m = ( ;a: ;64;;;;TooDeep at 1:196
;x = ( | ;64;;| );.;MissingCore nil
;x = ( | ;65;;;;TooDeep at 1:517
m = ( ;(3). ;65;).;;;MissingCore nil
m = ( ;a: 3. ;65;).;;;MissingCore nil";

// Pending values.
const PENDING: &str = "\
m = ( ;a: 1 B: 2 C: 3 D: 4 E: (;15;5;);).;MissingCore nil
m = ( ;a: 1 B: 2 C: 3 D: 4 E: (;15;a: 1 B: 2 C: 3 D: 4;);).;MissingCore nil
m = ( ;a: 1 B: 2 C: 3 D: 4 E: (;15;a: 1 B: 2 C: 3 D: 4 E: 5;);).;TooDeep at 1:390
m = ( ;a: 1 B: 2 C: 3 D: 4 E: (;16;5;;;TooDeep at 1:391
m = ( ;a: 1 B: 2 C: 3 D: 4 E: (;15;[ a: 1 B: 2 C: 3 D: 4 E: 5 ];);).;MissingCore nil
m = ( ;1 + (;63;2;);).;MissingCore nil
m = ( ;1 + (;63;1 + 2;);).;TooDeep at 1:326";

// Locals of methods and blocks; an object has any number of slots.
const LOCALS: &str = "\
m: v = ( | ;x##. ;64;| 3 ).;;;MissingCore nil
m: v = ( | ;x##. ;65;| 3 ).;;;TooManyLocals at 1:332
m: v = ( | ;x##. ;64;x00 | 3 ).;;;TooManyLocals at 1:332
x = ( | ;x##. ;64;| 3 ).;;;MissingCore nil
x = ( | ;x##. ;65;| 3 ).;;;TooManyLocals at 1:329
x = ( | ;x##. ;66;| 3 ).;;;TooManyLocals at 1:329
x = ( | ;x##. ;64;x00 | 3 ).;;;DuplicateSlot at 1:329
x = ( | ;x##. ;65;p* = lobby | 3 ).;;;BadSyntax at 1:347
x = ( | ;x##. ;66;| ).;;;MissingCore nil
m = ( [ | ;x##. ;64;| 3 ] ).;;;MissingCore nil
m = ( [ | ;x##. ;65;| 3 ] ).;;;TooManyLocals at 1:331
m = ( [ | :a. :b. :c. :d. :e. ;x##. ;64;| 3 ] ).;;;MissingCore nil";

// Arguments, and parts of a message; integers.
const ARGUMENTS: &str = "\
a: v B: w C: x D: y E: z = ( v ).;;0;;;;MissingCore nil
a: B: C: D: E: = ( | :a. :b. :c. :d. :e | a ).;;0;;;;MissingCore nil
a: B: C: D: E: F: = ( 3 ).;;0;;;;TooManyArgs at 1:16
m = ( a: 1 B: 2 C: 3 D: 4 E: 5 ).;;0;;;;MissingCore nil
m = ( 1 _A: 1 B: 2 C: 3 D: 4 E: 5 ).;;0;;;;MissingCore nil
m = ( 1 _A: 1 B: 2 C: 3 D: 4 E: 5 F: 6 ).;;0;;;;TooManyArgs at 1:35
m = ( [ | :a. :b. :c. :d. :e | a ] ).;;0;;;;MissingCore nil
m = ( [ | :a. :b. :c. :d. :e. :f | a ] ).;;0;;;;TooManyArgs at 1:31
x = 536870911. y = -536870912.;;0;;;;MissingCore nil
m = ( 3 + -536870912 ).;;0;;;;MissingCore nil
m = ( 3 -536870912 ).;;0;;;;IntTooWide at 1:10
x = ;0;1000;536870911.;;;MissingCore nil
x = ;0;1000;536870912.;;;IntTooWide at 1:5";

// Nodes of one body: a literal and a drop for each statement, and the end.
const NODES: &str = "\
m = ( ;1. ;512;).;;;MissingCore nil
m = ( ;1. ;513;).;;;TooManyNodes at 1:1543
m = ( 1 a a. ;1. ;510;).;;;MissingCore nil
m = ( 1 a. ;1. ;511;).;;;TooManyNodes at 1:1545
m = ( 1 a. ;1. ;511;1 ).;;;TooManyNodes at 1:1543
m = ( ;[1]. ;512;).;;;MissingCore nil
m = ( ;[1]. ;513;).;;;TooManyNodes at 1:2567
m = ( [ ;1. ;512;] ).;;;MissingCore nil
m = ( [ ;1. ;513;] ).;;;TooManyNodes at 1:1545";

// Slots, objects and nodes of a world, with the lobby: what passes is a slot, an object, a node.
const SIZES: &str = "\
;x#####. ;65535;;;;MissingCore nil
;x#####. ;65536;;;;TooManyNodes at 1:524281
;x#####. ;65535;x00000.;;;DuplicateSlot at 1:524281
;x#####. ;65534;y = 'a'.;;;MissingCore nil
;x#####. ;65533;y = ().;;;MissingCore nil
;x#####. ;65534;y = ().;;;TooManyNodes at 1:524277
;x#####. ;65532;m = ( 3 ).;;;MissingCore nil
;x#####. ;65533;m = ( 3 ).;;;TooManyNodes at 1:524273
;x#####. ;65531;m: v = ( v ).;;;MissingCore nil
;x#####. ;65532;m: v = ( v ).;;;TooManyNodes at 1:524268";

// Texts of a megabyte, and one byte more.
const LENGTHS: &str = "\
\";a;1048574;\";;;MissingCore nil
\";a;1048575;\";;;TooLong
\";a;1048575;;;;BadToken at 1:1
x = ;(;1048572;;;;TooDeep at 1:69
x = ';a;1048570;';;;MissingCore nil
x = ';a;1048571;;;;BadToken at 1:5
;a;1048576;;;;MissingCore nil
x = ;1;1048572;;;;IntTooWide at 1:5
;~;1048575;);;;BadSyntax at 1048576:1
lobby = lobby. x = lobby; lobby;174758;.;;;MissingCore nil
lobby = lobby. x = lobby; lobby;1000; zork.;;;NoSuchPath at 1:6026";

// What `nil` is: a constant slot with an object, there once it was read.
const NILS: &str = "\
lobby = lobby. nil = ().;;0;;;;MissingCore true
nil = (). m = ( ^ nil ).;;0;;;;MissingCore true
nil = (). x = nil.;;0;;;;MissingCore true
nil = (). p* = nil.;;0;;;;MissingCore true
nil = lobby.;;0;;;;MissingCore true
x = nil. nil = ().;;0;;;;NoSuchPath at 1:5
nil = nil.;;0;;;;NoSuchPath at 1:7
nil* = ().;;0;;;;MissingCore nil
nil = ( 3 ).;;0;;;;MissingCore nil
x. nil = x.;;0;;;;MissingCore nil
x. p* = x.;;0;;;;MissingCore nil
x. y = x z. nil = ( | z = 1 | ).;;0;;;;NoSuchPath at 1:10
nil = ( | z = 1 | ). x. y = x z.;;0;;;;MissingCore true";

// Worlds with all core objects.
const CORES: &str = "\
nil = (). true = (). false = (). integerTraits = (). stringTraits = (). vectorTraits = (). blockTraits = (). \
;x#####. ;0;;;;8 objects 0 bodies size 15
nil = (). true = (). false = (). integerTraits = (). stringTraits = (). vectorTraits = (). blockTraits = (). \
;x#####. ;65521;;;;8 objects 0 bodies size 65536
nil = (). true = nil. false = nil. integerTraits = nil. stringTraits = nil. vectorTraits = nil. blockTraits = nil.\
;;0;;;;2 objects 0 bodies size 9
x. nil = (). true = x. false = x. integerTraits = x. stringTraits = x. vectorTraits = x. blockTraits = x.\
;;0;;;;2 objects 0 bodies size 10";

// How often a row has its piece.
fn times(row: &str) -> u32 {
    match field(row, 2).parse::<u32>() {
        Ok(times) => times,
        Err(_) => 0,
    }
}

// The digit of a number that has so many behind it.
fn digit(number: u32, behind: usize) -> u8 {
    let shown = match behind {
        0 => number,
        1 => number / 10,
        2 => number / 100,
        3 => number / 1000,
        _ => number / 10000,
    };
    b'0' + (shown % 10) as u8
}

fn marks_in(piece: &str) -> usize {
    piece
        .as_bytes()
        .iter()
        .filter(|byte| **byte == b'#')
        .count()
}

// A piece, at the end of a text.
fn put(text: &mut Vec<u8>, piece: &str, turn: u32) -> Result<(), AllocError> {
    let mut marks = marks_in(piece);
    for byte in piece.as_bytes() {
        if *byte == b'#' {
            marks = marks.saturating_sub(1);
            text.push(digit(turn, marks))?;
        } else {
            text.push(if *byte == b'~' { b'\n' } else { *byte })?;
        }
    }
    Ok(())
}

// A piece so many times.
fn put_all(text: &mut Vec<u8>, piece: &str, times: u32) -> Result<(), AllocError> {
    for turn in 0..times {
        put(text, piece, turn)?;
    }
    Ok(())
}

// The world of a row.
fn world_of(alloc: Global, row: &str) -> Result<Vec<u8>, AllocError> {
    let times = times(row);
    let mut world = Vec::new(alloc);
    put(&mut world, field(row, 0), 0)?;
    put_all(&mut world, field(row, 1), times)?;
    put(&mut world, field(row, 3), 0)?;
    put_all(&mut world, field(row, 4), times)?;
    put(&mut world, field(row, 5), 0)?;
    Ok(world)
}

// The line of a row, behind how it begins.
fn line_of(alloc: Global, begin: &str, row: &str) -> Result<Vec<u8>, AllocError> {
    let mut line = begin.as_bytes().to_vec(alloc)?;
    line.extend_from_slice(field(row, 6).as_bytes())?;
    line.push(b'\n')?;
    Ok(line)
}

// The check of a row's world writes its line, which begins so, and ends with this status. No script is read.
fn agrees(alloc: Global, begin: &str, row: &str, status: u8) -> Result<bool, AllocError> {
    let world = world_of(alloc, row)?;
    let line = line_of(alloc, begin, row)?;
    let written = call(alloc, CHECK, &world, b"", 1, 0)?;
    Ok(written.0.as_slice() == line.as_slice() && written.1 == status)
}

fn is_refused(alloc: Global, row: &str) -> Result<bool, AllocError> {
    agrees(alloc, "world refused ", row, 2)
}

#[test]
fn limits_nesting(rt: HostRuntime) -> Result<(), Fail> {
    for row in NESTING.split('\n') {
        assert!(rt; is_refused(rt.alloc(), row)?, "{row}");
    }
    Ok(())
}

#[test]
fn limits_pending_values(rt: HostRuntime) -> Result<(), Fail> {
    for row in PENDING.split('\n') {
        assert!(rt; is_refused(rt.alloc(), row)?, "{row}");
    }
    Ok(())
}

#[test]
fn limits_locals(rt: HostRuntime) -> Result<(), Fail> {
    for row in LOCALS.split('\n') {
        assert!(rt; is_refused(rt.alloc(), row)?, "{row}");
    }
    Ok(())
}

#[test]
fn limits_arguments_and_integers(rt: HostRuntime) -> Result<(), Fail> {
    for row in ARGUMENTS.split('\n') {
        assert!(rt; is_refused(rt.alloc(), row)?, "{row}");
    }
    Ok(())
}

#[test]
fn limits_nodes_of_a_body(rt: HostRuntime) -> Result<(), Fail> {
    for row in NODES.split('\n') {
        assert!(rt; is_refused(rt.alloc(), row)?, "{row}");
    }
    Ok(())
}

#[test]
fn limits_size(rt: HostRuntime) -> Result<(), Fail> {
    for row in SIZES.split('\n') {
        assert!(rt; is_refused(rt.alloc(), row)?, "{row}");
    }
    Ok(())
}

#[test]
fn limits_length(rt: HostRuntime) -> Result<(), Fail> {
    for row in LENGTHS.split('\n') {
        assert!(rt; is_refused(rt.alloc(), row)?, "{row}");
    }
    Ok(())
}

#[test]
fn needs_nil(rt: HostRuntime) -> Result<(), Fail> {
    for row in NILS.split('\n') {
        assert!(rt; is_refused(rt.alloc(), row)?, "{row}");
    }
    Ok(())
}

#[test]
fn holds_full_worlds(rt: HostRuntime) -> Result<(), Fail> {
    for row in CORES.split('\n') {
        assert!(rt; agrees(rt.alloc(), "ok ", row, 0)?, "{row}");
    }
    Ok(())
}
