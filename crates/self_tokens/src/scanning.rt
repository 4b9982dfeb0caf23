// The tokens of a text, from its first byte to its last.
ghost use Rattle.std.specs.Prelude.{◌≡◌, ◌≤◌, ◌<◌, ◌+◌, ℕ, false, length, drop, IfOk};
ghost use Rattle.self_tokens.specs.Forms.{LiesWithin, piece};
ghost use Rattle.std.specs.List.{All};
ghost use Rattle.self_tokens.specs.Texts.{LiesIn};
ghost use Rattle.self_tokens.specs.Tokens.{IsPlace, tokens};

use crate::forms::{Piece, next_piece};
use crate::symbols::{Kind, OutOfMemory, Token, TokenList};
use std::alloc::Global;

/// A place in a text: a byte, and its line and column.
#[derive(Clone, Copy, Debug)]
struct Cursor {
    at: usize,
    line: u32,
    column: u32,
}

/// The place `count` bytes on.
fn advance(bytes: &[u8], from: Cursor, count: usize) -> Cursor
    requires small { length bytes.now ≤ 1048576 }
    requires within { from.at + count ≤ length bytes.now }
    requires place { IsPlace bytes.now from.at from.line from.column }
    ensures at { result.at ≡ from.at + count }
    ensures place { IsPlace bytes.now result.at result.line result.column }
{
    let mut line = from.line;
    let mut column = from.column;
    for at in from.at..from.at + count {
        if bytes[at] == b'\n' {
            line += 1;
            column = 1;
            continue;
        }
        column += 1;
    }
    Cursor {
        at: from.at + count,
        line,
        column,
    }
}

fn token(kind: Kind, from: Cursor, end: usize) -> Token
    ensures { result ≡ record { kind = kind; start = from.at; end = end; line = from.line; column = from.column } }
{
    Token {
        kind,
        start: from.at,
        end,
        line: from.line,
        column: from.column,
    }
}

/// The piece that begins at a place.
fn piece_at(behind_operand: bool, bytes: &[u8], at: usize) -> Piece
    requires { at < length bytes.now }
    ensures exact { result ≡ piece behind_operand (drop at bytes.now) }
    ensures within { LiesWithin result (length (drop at bytes.now)) }
{
    next_piece(behind_operand, &bytes[at..])
}

fn scan_all(alloc: Global, bytes: &[u8]) -> Result<TokenList, OutOfMemory>
    requires { length bytes.now ≤ 1048576 }
    ensures { IfOk result (λ list. list ≡ tokens bytes.now) }
{
    let mut list = TokenList::new(alloc);
    let mut here = Cursor {
        at: 0,
        line: 1,
        column: 1,
    };
    let mut behind_operand = false;
    while here.at < bytes.len() {
        match piece_at(behind_operand, bytes, here.at) {
            Piece::Blank(count) => {
                here = advance(bytes, here, count);
                continue;
            }
            Piece::Whole(kind, count) => {
                let next = advance(bytes, here, count);
                list.push(token(kind, here, next.at))?;
                behind_operand = kind.ends_operand();
                here = next;
                continue;
            }
            Piece::Faulty(fault, count) => {
                here = advance(bytes, here, count);
                list.push(token(Kind::Bad(fault), here, here.at))?;
                return Ok(list);
            }
        }
    }
    list.push(token(Kind::End, here, here.at))?;
    Ok(list)
}

/// The tokens of a text, in their order. The last is the end or the first fault.
pub fn scan(alloc: Global, bytes: &[u8]) -> Result<TokenList, OutOfMemory>
    requires { length bytes.now ≤ 1048576 }
    ensures exact { IfOk result (λ list. list ≡ tokens bytes.now) }

    // Each token can be cut out of the text.
    ensures within { IfOk result (λ list. All (LiesIn (length bytes.now)) list) }
{
    scan_all(alloc, bytes)
}
