// What a line of a script says.
ghost use Rattle.std.specs.Prelude.{◌≡◌, ◌∷◌, IfOk};
ghost use Rattle.session_text.specs.Words.{number, words};
ghost use Rattle.session_text.specs.Commands.{alone, counted, spawning, editing, of_other_words, of_words, meaning};

use crate::commands::{Command, PathText, bytes_of};
use crate::words::{first_word, is_blank, is_name, number};
use self_terms::OutOfMemory;
use std::alloc::Global;

/// What a line says: nothing, a command, the beginning of an edit of this path, or none of these.
#[derive(Drop)]
pub enum Meaning {
    Idle,
    Does(Command),
    Opens(PathText),
    NoCommand,
}

fn alone(word: &[u8]) -> Meaning
    ensures { result ≡ alone word.now }
{
    if word == "step".as_bytes() {
        return Meaning::Does(Command::Step);
    }
    if word == "stack".as_bytes() {
        return Meaning::Does(Command::Stack);
    }
    if word == "units".as_bytes() {
        return Meaning::Does(Command::Units);
    }
    if word == "machine".as_bytes() {
        return Meaning::Does(Command::Machine);
    }
    Meaning::NoCommand
}

fn counted(word: &[u8], count: Option<u32>) -> Meaning
    ensures { result ≡ counted word.now count }
{
    let Some(count) = count else {
        return Meaning::NoCommand;
    };
    if word == "run".as_bytes() {
        return Meaning::Does(Command::Run(count));
    }
    if word == "continue".as_bytes() {
        return Meaning::Does(Command::Continue(count));
    }
    if word == "finish".as_bytes() {
        return Meaning::Does(Command::Finish(count));
    }
    if word == "interrupt".as_bytes() {
        return Meaning::Does(Command::Interrupt(count));
    }
    if word == "switch".as_bytes() {
        return Meaning::Does(Command::Switch(count));
    }
    if word == "advisor".as_bytes() {
        return Meaning::Does(Command::Advisor(count));
    }
    Meaning::NoCommand
}

fn spawning(alloc: Global, name: &[u8]) -> Result<Meaning, OutOfMemory>
    ensures { IfOk result (λ m. m ≡ spawning name.now) }
{
    if !is_name(name) {
        return Ok(Meaning::NoCommand);
    }
    let name = bytes_of(alloc, name)?;
    Ok(Meaning::Does(Command::Spawn(name)))
}

// The names of a path.
fn editing(alloc: Global, text: &[u8]) -> Result<Meaning, OutOfMemory>
    ensures { IfOk result (λ m. m ≡ editing (words text.now)) }
{
    let mut path = PathText::open(alloc);
    let mut rest = text;
    while let Some(split) = first_word(rest) {
        if !is_name(split.word) {
            return Ok(Meaning::NoCommand);
        }
        path.push(bytes_of(alloc, split.word)?)?;
        rest = split.rest;
    }
    if path.as_slice().is_empty() {
        return Ok(Meaning::NoCommand);
    }
    Ok(Meaning::Opens(path))
}

fn of_other_words(alloc: Global, word: &[u8], text: &[u8]) -> Result<Meaning, OutOfMemory>
    ensures { IfOk result (λ m. m ≡ of_other_words word.now (words text.now)) }
{
    let Some(split) = first_word(text) else {
        return Ok(alone(word));
    };
    if first_word(split.rest).is_some() {
        return Ok(Meaning::NoCommand);
    }
    if word == "spawn".as_bytes() {
        return spawning(alloc, split.word);
    }
    Ok(counted(word, number(split.word)))
}

fn of_words(alloc: Global, text: &[u8]) -> Result<Meaning, OutOfMemory>
    ensures { IfOk result (λ m. m ≡ of_words (words text.now)) }
{
    let Some(split) = first_word(text) else {
        return Ok(Meaning::NoCommand);
    };
    if split.word == "edit".as_bytes() {
        return editing(alloc, split.rest);
    }
    of_other_words(alloc, split.word, split.rest)
}

/// What a line says that has no blanks at its end.
pub fn line_meaning(alloc: Global, line: &[u8]) -> Result<Meaning, OutOfMemory>
    ensures { IfOk result (λ m. m ≡ meaning line.now) }
{
    if line.is_empty() {
        return Ok(Meaning::Idle);
    }
    let first = line[0];
    if first == b'#' {
        return Ok(Meaning::Idle);
    }
    if is_blank(first) {
        return Ok(Meaning::NoCommand);
    }
    of_words(alloc, line)
}
