// Tables of worlds and scripts, with the expected text and status.
//
// A table is one text: a line for each row, whose fields `;` parts. In a field `~` stands for a newline.

use io_ports::{MemFiles, MemSink, MemSource, NamedFile};
use recompile::{Advisor, Plain};
use self_debugger::selfdb;
use std::alloc::{AllocError, Global};

// The core text, nine lines, as in `rows`.
const CORE_TEXT: &[u8] = b"lobby = lobby. nil = ().\n\
true = ( | parent* = lobby. ifTrue: a False: b = ( a value ) | ).\n\
false = ( | parent* = lobby. ifTrue: a False: b = ( b value ) | ).\n\
integerTraits = ( | parent* = lobby. + n = ( _IntAdd: n ). - n = ( _IntSub: n ).\n\
< n = ( _IntLT: n ). = n = ( _IntEQ: n ) | ).\n\
stringTraits = ( | parent* = lobby. print = ( _StringPrint ) | ).\n\
vectorTraits = ( | parent* = lobby | ).\n\
blockTraits = ( | parent* = lobby.\n\
whileTrue: b = ( value ifTrue: [ b value ] False: [ ^ nil ]. _Restart ) | ).\n";

const RUN: &[&str] = &["run", "add.self"];

// The bytes of a field.
fn bytes_of(alloc: Global, field: &str) -> Result<Vec<u8>, AllocError> {
    let mut bytes = Vec::new(alloc);
    for byte in field.as_bytes() {
        bytes.push(if *byte == b'~' { b'\n' } else { *byte })?;
    }
    Ok(bytes)
}

// The field of a row with this number, and the empty text behind the last.
fn field(row: &str, number: usize) -> &str {
    match row.split(';').nth(number) {
        Some(field) => field,
        None => "",
    }
}

// The words as texts.
fn texts_of(alloc: Global, words: &[&str]) -> Result<Vec<String>, AllocError> {
    let mut texts = Vec::new(alloc);
    for word in words {
        texts.push(word.to_string(alloc)?)?;
    }
    Ok(texts)
}

// The core text, and these lines.
fn world_of(alloc: Global, lines: &str) -> Result<Vec<u8>, AllocError> {
    let mut world = CORE_TEXT.to_vec(alloc)?;
    world.extend_from_slice(&bytes_of(alloc, lines)?)?;
    Ok(world)
}

// Three advisors that advise nothing, as the program hands them in.
fn advisors(alloc: Global) -> Result<Vec<Box<dyn Advisor + Drop>>, AllocError> {
    let mut list: Vec<Box<dyn Advisor + Drop>> = Vec::new(alloc);
    for _ in 0..3 {
        list.push(Box::new(alloc, Plain)?)?;
    }
    Ok(list)
}

// The status with which the program ends over these devices.
fn status_of(
    alloc: Global,
    texts: &[String],
    files: &mut MemFiles,
    source: &mut MemSource,
    sink: &mut MemSink,
) -> Result<u8, AllocError> {
    Ok(selfdb(alloc, texts, files, source, sink, advisors(alloc)?).status)
}

// What the sink took in a run of the world with the script, and the status.
fn call(alloc: Global, world: &[u8], script: &[u8]) -> Result<(Vec<u8>, u8), AllocError> {
    let texts = texts_of(alloc, RUN)?;
    let mut list = Vec::new(alloc);
    list.push(NamedFile::new("add.self".to_string(alloc)?, world.to_vec(alloc)?))?;
    let mut files = MemFiles::new(alloc, list, Vec::new(alloc))?;
    let mut source = MemSource::new(script.to_vec(alloc)?, Vec::new(alloc));
    let mut sink = MemSink::new(alloc, 4096, Vec::new(alloc))?;
    let status = status_of(alloc, &texts, &mut files, &mut source, &mut sink)?;
    Ok((sink.bytes().to_vec(alloc)?, status))
}

// The run of a row writes the text of the row and ends with its status.
pub(crate) fn agrees(alloc: Global, row: &str) -> Result<bool, AllocError> {
    let world = world_of(alloc, field(row, 0))?;
    let script = bytes_of(alloc, field(row, 1))?;
    let text = bytes_of(alloc, field(row, 2))?;
    let (written, status) = call(alloc, &world, &script)?;
    Ok(
        written.as_slice() == text.as_slice()
            && field(row, 3).as_bytes() == [b'0' + status % 10].as_slice(),
    )
}
