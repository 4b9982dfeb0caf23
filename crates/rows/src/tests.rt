// Tables of worlds and scripts, with the expected text and status.
//
// A table is one text: a line for each row, whose fields `;` parts. In a field `~` stands for a newline.

use crate::core_text::CORE_TEXT;
use crate::refusals::REFUSALS;
use io_ports::{MemFiles, MemSink, MemSource, NamedFile};
use recompile::{Advisor, Plain};
use self_debugger::selfdb;
use std::alloc::{AllocError, Global};
use std::test::Fail;

// What the sink took, the status, and how many calls the files had.
pub(crate) type Written = (Vec<u8>, u8, u64);

const RUN: &[&str] = &["run", "add.self"];

pub(crate) const CHECK: &[&str] = &["check", "add.self"];

// Worlds behind the core text, scripts, texts and statuses.
const SUMS: &str = "\
main = ( 3 _IntAdd: 4 ).~;spawn main~run 100~;activity 1~done 7 at 4~;0
main = ( 3 _IntAdd: 4 ).~;spawn main~run 1000000000;activity 1~done 7 at 4~;0
main = ( 3 _IntAdd: 4 ).~;spawn main~run 4~;activity 1~done 7 at 4~;0
main = ( 3 _IntAdd: 4 ).~;spawn main~run 3~;activity 1~stop at 3 line 10:23~;0
main = ( 3 _IntAdd: 4 ).~;spawn main~run 2~;activity 1~stop at 2 line 10:12~;0
main = ( 3 _IntAdd: 4 ).~;spawn main~run 1~;activity 1~stop at 1 line 10:21~;0
main = ( 3 _IntAdd: 4 ).~;spawn main~run 0~;activity 1~stop at 0 line 10:10~;0
main = ( 003 _IntAdd: 4 ).;spawn main~run 3~;activity 1~stop at 3 line 10:25~;0
main = ( 536870911 _IntAdd: 0 ).;spawn main~run 9~;activity 1~done 536870911 at 4~;0
main = ( 536870911 _IntAdd: 1 ).;spawn main~run 2~;activity 1~stop at 2 line 10:20~;0
main = ( 536870911 _IntAdd: 1 ).;spawn main~run 9~;activity 1~error overflowError at 2 line 10:20~;0";

// The same of more methods `main`.
const MAINS: &str = "\
main = ( 3 ).~;spawn main~run 3~;activity 1~done 3 at 2~;0
main = ( -3 _IntAdd: 4 ).~;spawn main~run 9~;activity 1~done 1 at 4~;0
main = ( 3 _IntAdd: 4 ).~~;spawn main~run 9~;activity 1~done 7 at 4~;0
main = ( 9 _IntSub: 4 _IntSub: 3 ).;spawn main~run 100~;activity 1~done 8 at 6~;0";

// Other scripts, worlds without a method `main`, and worlds that are refused.
const OTHERS: &str = "\
main = ( 3 _IntAdd: 4 ).~;spawn main~run 03~;activity 1~stop at 3 line 10:23~;0
main = ( 3 _IntAdd: 4 ).~;spawn main~run 1000000001~;script refused line 2~;3
main = ( 3 _IntAdd: 4 ).~;spawn main~run 3~~;activity 1~stop at 3 line 10:23~;0
main = ( 3 _IntAdd: 4 ).~;spawn main~run~;script refused line 2~;3
main = ( 3 _IntAdd: 4 ).~;spawn main~jump 3~;script refused line 2~;3
main = ( 3 _IntAdd: 4 ).~;;;0
x = 3.~;spawn main~run 3~;refused notUnderstood~refused no activity~;0
main = 3.~;spawn main~run 3~;refused not a method~refused no activity~;0
main = ( 536870912 _IntAdd: 1 ).~;spawn main~run 3~;world refused IntTooWide at 10:10~;2
x = zork.~;spawn main~run 3~;world refused NoSuchPath at 10:5~;2
p* = 3.~;spawn main~run 3~;world refused ParentNotObject at 10:1~;2
;spawn main~run 3~;refused notUnderstood~refused no activity~;0";

// Worlds behind the core text, and what a check says of them.
const CHECKS: &str = "\
main = ( 3 _IntAdd: 4 ).;ok 8 objects 11 bodies size 76~;0
traits = ( | parent* = lobby.~point = ( | parent* = lobby. + p = ( | r | r: clone. r x: x + p x. r y: y + p y. r ).~\
clone = ( _Clone ). show = ( x _IntPrint. y _IntPrint ) | ) | ).~point = ( | parent* = traits point. x <- 0. y <- 0 | ).~\
main = ( | p. q | p: point clone. p x: 3. p y: 4. q: p + p. q show ).~;ok 11 objects 14 bodies size 137~;0
x = zork.;world refused NoSuchPath at 10:5~;2
p* = 3.;world refused ParentNotObject at 10:1~;2";

// The bytes of a field.
fn bytes_of(alloc: Global, field: &str) -> Result<Vec<u8>, AllocError> {
    let mut bytes = Vec::new(alloc);
    for byte in field.as_bytes() {
        bytes.push(if *byte == b'~' { b'\n' } else { *byte })?;
    }
    Ok(bytes)
}

// The field of a row with this number, and the empty text behind the last.
pub(crate) fn field(row: &str, number: usize) -> &str {
    match row.split(';').nth(number) {
        Some(field) => field,
        None => "",
    }
}

// The words as texts.
fn texts_of(alloc: Global, words: &[&str]) -> Result<Vec<String>, AllocError> {
    let mut texts = Vec::new(alloc);
    for word in words {
        texts.push(word.to_string(alloc)?)?;
    }
    Ok(texts)
}

// The files `other.self`, whose world is accepted too, and `add.self`. The call with this number fails, counted over
// both.
fn files_of(alloc: Global, world: &[u8], failed: u64) -> Result<MemFiles, AllocError> {
    let other = world_of(alloc, "main = ( 1 _IntAdd: 1 ).~")?;
    let mut list = Vec::new(alloc);
    list.push(NamedFile::new("other.self".to_string(alloc)?, other))?;
    list.push(NamedFile::new("add.self".to_string(alloc)?, world.to_vec(alloc)?))?;
    MemFiles::new(alloc, list, vec![in alloc; failed]?)
}

// Three advisors that advise nothing, as the program hands them in.
fn advisors(alloc: Global) -> Result<Vec<Box<dyn Advisor + Drop>>, AllocError> {
    let mut list: Vec<Box<dyn Advisor + Drop>> = Vec::new(alloc);
    for _ in 0..3 {
        list.push(Box::new(alloc, Plain)?)?;
    }
    Ok(list)
}

// The status with which the program ends over these devices.
fn status_of(
    alloc: Global,
    texts: &[String],
    files: &mut MemFiles,
    source: &mut MemSource,
    sink: &mut MemSink,
) -> Result<u8, AllocError> {
    Ok(selfdb(alloc, texts, files, source, sink, advisors(alloc)?).status)
}

// A call over the files, and a script. The reads of the script and the writes with these numbers fail.
pub(crate) fn call(
    alloc: Global,
    words: &[&str],
    world: &[u8],
    script: &[u8],
    failed_read: u64,
    failed_write: u64,
) -> Result<Written, AllocError> {
    let texts = texts_of(alloc, words)?;
    let mut files = files_of(alloc, world, 0)?;
    let mut source = MemSource::new(script.to_vec(alloc)?, vec![in alloc; failed_read]?);
    let mut sink = MemSink::new(alloc, 4096, vec![in alloc; failed_write]?)?;
    let status = status_of(alloc, &texts, &mut files, &mut source, &mut sink)?;
    Ok((sink.bytes().to_vec(alloc)?, status, files.calls()))
}

// The core text, and this line.
fn world_of(alloc: Global, main: &str) -> Result<Vec<u8>, AllocError> {
    let mut world = CORE_TEXT.to_vec(alloc)?;
    world.extend_from_slice(&bytes_of(alloc, main)?)?;
    Ok(world)
}

// The call of a row writes the text of the row and ends with its status. The files have two calls: one for all bytes
// of the world, which are fewer than 4,096, and one for its end.
pub(crate) fn agrees(alloc: Global, row: &str) -> Result<bool, AllocError> {
    let world = world_of(alloc, field(row, 0))?;
    let script = bytes_of(alloc, field(row, 1))?;
    let text = bytes_of(alloc, field(row, 2))?;
    let (written, status, reads) = call(alloc, RUN, &world, &script, 0, 0)?;
    Ok(
        written.as_slice() == text.as_slice()
            && field(row, 3).as_bytes() == [b'0' + status % 10].as_slice()
            && reads == 2,
    )
}

#[test]
fn adds_two_integers(rt: HostRuntime) -> Result<(), Fail> {
    for row in SUMS.split('\n') {
        assert!(rt; agrees(rt.alloc(), row)?, "{row}");
    }
    Ok(())
}

#[test]
fn runs_the_method_main(rt: HostRuntime) -> Result<(), Fail> {
    for row in MAINS.split('\n') {
        assert!(rt; agrees(rt.alloc(), row)?, "{row}");
    }
    Ok(())
}

#[test]
fn runs_other_texts(rt: HostRuntime) -> Result<(), Fail> {
    for row in OTHERS.split('\n') {
        assert!(rt; agrees(rt.alloc(), row)?, "{row}");
    }
    Ok(())
}

// No script is read for a check: its source would fail.
#[test]
fn checks_worlds(rt: HostRuntime) -> Result<(), Fail> {
    for row in CHECKS.split('\n') {
        let world = world_of(rt.alloc(), field(row, 0))?;
        let text = bytes_of(rt.alloc(), field(row, 1))?;
        let written = call(rt.alloc(), CHECK, &world, b"", 1, 0)?;
        assert!(rt; written.0.as_slice() == text.as_slice(), "{row}");
        assert!(rt;
            field(row, 2).as_bytes() == [b'0' + written.1 % 10].as_slice(),
            "{row}"
        );
        assert!(rt; written.2 == 2, "{row}");
    }
    Ok(())
}

#[test]
fn refuses_other_worlds(rt: HostRuntime) -> Result<(), Fail> {
    for row in REFUSALS.split('\n') {
        let mut text = b"world refused ".to_vec(rt.alloc())?;
        text.extend_from_slice(field(row, 1).as_bytes())?;
        text.extend_from_slice(b"\n")?;
        for words in [RUN, CHECK] {
            let written = call(rt.alloc(), words, field(row, 0).as_bytes(), b"", 1, 0)?;
            assert!(rt; written.0.as_slice() == text.as_slice(), "{row}");
            assert!(rt; written.1 == 2, "{row}");
        }
    }
    Ok(())
}

#[test]
fn refuses_other_words(rt: HostRuntime) -> Result<(), Fail> {
    let usage = "usage: selfdb run WORLD | check WORLD | drill N\n";
    let rows: [(&[&str], &str); 9] = [
        (&[], usage),
        (&["run"], usage),
        (&["run", ""], usage),
        (&["run", "-w"], usage),
        (&["run", "add.self", "add.self"], usage),
        (&["walk", "add.self"], usage),
        (&["drill", "4001"], usage),
        (&["drill", "4000"], "not built\n"),
        (&["check"], usage),
    ];
    for (words, text) in rows {
        let written = call(rt.alloc(), words, b"", b"", 0, 0)?;
        assert_eq!(rt; written.0.as_slice(), text.as_bytes());
        assert_eq!(rt; written.1, 1);
        // No file is read.
        assert_eq!(rt; written.2, 0);
    }
    Ok(())
}

// A call in which the call for a file with this number fails: its status, how many calls the files had, and the faults of
// the three names.
fn failed_at(
    alloc: Global,
    words: &[&str],
    world: &[u8],
    number: u64,
) -> Result<[u64; 5], AllocError> {
    let texts = texts_of(alloc, words)?;
    let mut files = files_of(alloc, world, number)?;
    let mut source = MemSource::new(b"spawn main\nrun 9\n".to_vec(alloc)?, Vec::new(alloc));
    let mut sink = MemSink::new(alloc, 4096, Vec::new(alloc))?;
    let status = status_of(alloc, &texts, &mut files, &mut source, &mut sink)?;
    Ok([
        status as u64,
        files.calls(),
        files.faults_of("add.self"),
        files.faults_of("other.self"),
        files.faults_of("none.self"),
    ])
}

// Each call for a file, failed by its number, raises the faults of the world that the words name, and of no other file.
// Reading this world takes so many calls: one for each 4,096 bytes of it begun, and one for its end.
fn reads_alone(
    alloc: Global,
    words: &[&str],
    world: &[u8],
    reads: u64,
) -> Result<bool, AllocError> {
    let written = call(alloc, words, world, b"spawn main\nrun 9\n", 0, 0)?;
    if written.2 != reads {
        return Ok(false);
    }
    for before in 0..reads {
        let number = before + 1;
        let failed = failed_at(alloc, words, world, number)?;
        if failed.as_slice() != [4, number, 1, 0, 0].as_slice() {
            return Ok(false);
        }
    }
    Ok(true)
}

#[test]
fn reads_the_named_world_alone(rt: HostRuntime) -> Result<(), Fail> {
    let alloc = rt.alloc();
    let sum = world_of(alloc, "main = ( 3 _IntAdd: 4 ).~")?;
    let long = vec![in alloc; b'#'; 10000]?;
    for words in [RUN, CHECK] {
        assert!(rt; reads_alone(alloc, words, &sum, 2)?);
        assert!(rt; reads_alone(alloc, words, b"", 1)?);
        assert!(rt; reads_alone(alloc, words, &long, 4)?);
    }
    Ok(())
}

#[test]
fn refuses_long_texts(rt: HostRuntime) -> Result<(), Fail> {
    let long = vec![in rt.alloc(); b'#'; 1048577]?;
    let written = call(rt.alloc(), RUN, &long, b"", 0, 0)?;
    assert_eq!(rt; written.0.as_slice(), b"world refused TooLong\n".as_slice());
    assert_eq!(rt; written.1, 2);
    let written = call(rt.alloc(), CHECK, &long, b"", 0, 0)?;
    assert_eq!(rt; written.0.as_slice(), b"world refused TooLong\n".as_slice());
    // One operator, behind which the text ends.
    let written = call(rt.alloc(), RUN, &long[1..], b"", 0, 0)?;
    assert_eq!(rt;
        written.0.as_slice(),
        b"world refused BadSyntax at 1:1048577\n".as_slice()
    );
    let world = world_of(rt.alloc(), "main = ( 3 _IntAdd: 4 ).\n")?;
    let written = call(rt.alloc(), RUN, &world, &long, 0, 0)?;
    assert_eq!(rt;
        written.0.as_slice(),
        b"script refused TooLong\n".as_slice()
    );
    assert_eq!(rt; written.1, 3);
    // One comment, behind which the script ends.
    let written = call(rt.alloc(), RUN, &world, &long[1..], 0, 0)?;
    assert!(rt; written.0.is_empty());
    assert_eq!(rt; written.1, 0);
    Ok(())
}

#[test]
fn stops_where_a_device_fails(rt: HostRuntime) -> Result<(), Fail> {
    let world = world_of(rt.alloc(), "main = ( 3 _IntAdd: 4 ).\n")?;
    let script = b"spawn main\nrun 3\n";
    let written = call(rt.alloc(), RUN, &world, script, 1, 0)?;
    assert!(rt; written.0.is_empty());
    assert_eq!(rt; written.1, 4);
    let written = call(rt.alloc(), RUN, &world, script, 0, 1)?;
    assert!(rt; written.0.is_empty());
    assert_eq!(rt; written.1, 5);
    let written = call(rt.alloc(), RUN, &world, script, 0, 2)?;
    assert_eq!(rt; written.0.as_slice(), b"activity 1\n".as_slice());
    assert_eq!(rt; written.1, 5);
    let written = call(rt.alloc(), RUN, &world, script, 0, 3)?;
    assert_eq!(rt;
        written.0.as_slice(),
        b"activity 1\nstop at 3 line 10:23\n".as_slice()
    );
    assert_eq!(rt; written.1, 0);
    let written = call(rt.alloc(), RUN, b"", script, 0, 1)?;
    assert_eq!(rt; written.1, 5);
    let written = call(rt.alloc(), CHECK, &world, script, 0, 1)?;
    assert!(rt; written.0.is_empty());
    assert_eq!(rt; written.1, 5);
    for words in [["run", "none.self"], ["check", "none.self"]] {
        let written = call(rt.alloc(), &words, &world, script, 0, 0)?;
        assert!(rt; written.0.is_empty());
        assert_eq!(rt; written.1, 4);
    }
    Ok(())
}
