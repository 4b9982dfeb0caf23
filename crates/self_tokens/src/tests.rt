// Tokens of texts, counted by hand.
ghost use Rattle.std.specs.Prelude.{◌≤◌, length};

use crate::symbols::{Fault, Kind, Token};
use crate::{scan, unescape};
use std::alloc::Global;
use std::process::Abort;
use std::test::Fail;

// One row: what a token is, its first byte, the byte behind it, its line and column.
fn row(kind: Kind, start: usize, end: usize, line: u32, column: u32) -> Token {
    Token {
        kind,
        start,
        end,
        line,
        column,
    }
}

fn assert_tokens(rt: &impl Abort, alloc: Global, text: &[u8], rows: &[Token]) -> Result<(), Fail>
    requires { length text.now ≤ 1048576 }
{
    let list = scan(alloc, text)?;
    assert_eq!(rt; list.as_slice().len(), rows.len());
    for (token, row) in list.as_slice().iter().zip(rows) {
        assert_eq!(rt; *token, *row);
    }
    Ok(())
}

#[test]
fn words_and_places(rt: HostRuntime) -> Result<(), Fail> {
    let rows = [
        row(Kind::Name, 0, 5, 1, 1),
        row(Kind::Operator, 6, 7, 1, 7),
        row(Kind::Name, 8, 13, 1, 9),
        row(Kind::Period, 13, 14, 1, 14),
        row(Kind::Name, 15, 18, 1, 16),
        row(Kind::Operator, 19, 20, 1, 20),
        row(Kind::OpenParen, 21, 22, 1, 22),
        row(Kind::CloseParen, 22, 23, 1, 23),
        row(Kind::Period, 23, 24, 1, 24),
        row(Kind::End, 25, 25, 2, 1),
    ];
    assert_tokens(&rt, rt.alloc(), b"lobby = lobby. nil = ().\n", &rows)?;
    let rows = [
        row(Kind::Delegate, 0, 2, 1, 1),
        row(Kind::Name, 2, 3, 1, 3),
        row(Kind::Period, 3, 4, 1, 4),
        row(Kind::Argument, 5, 7, 1, 6),
        row(Kind::Keyword, 8, 10, 1, 9),
        row(Kind::Name, 10, 11, 1, 11),
        row(Kind::End, 11, 11, 1, 12),
    ];
    assert_tokens(&rt, rt.alloc(), b"a.b. :x x:y", &rows)
}

#[test]
fn minus_signs(rt: HostRuntime) -> Result<(), Fail> {
    let rows = [
        row(Kind::Integer(3), 0, 1, 1, 1),
        row(Kind::Operator, 2, 3, 1, 3),
        row(Kind::Integer(4), 3, 4, 1, 4),
        row(Kind::Operator, 4, 5, 1, 5),
        row(Kind::Integer(5), 5, 6, 1, 6),
        row(Kind::End, 6, 6, 1, 7),
    ];
    assert_tokens(&rt, rt.alloc(), b"3 -4-5", &rows)?;
    let rows = [
        row(Kind::Delegate, 0, 7, 1, 1),
        row(Kind::Integer(-5), 7, 9, 1, 8),
        row(Kind::End, 9, 9, 1, 10),
    ];
    assert_tokens(&rt, rt.alloc(), b"resend.-5", &rows)
}

#[test]
fn strings_and_faults(rt: HostRuntime) -> Result<(), Fail> {
    let rows = [
        row(Kind::StringLiteral, 0, 5, 1, 1),
        row(Kind::OpenBracket, 6, 7, 1, 7),
        row(Kind::Integer(-536870912), 9, 19, 2, 2),
        row(Kind::Bad(Fault::IntTooWide), 20, 20, 2, 13),
    ];
    assert_tokens(&rt, rt.alloc(), b"'a\\n' [\n -536870912 536870912 [", &rows)?;
    assert_tokens(
        &rt,
        rt.alloc(),
        b"'a\\q'",
        &[row(Kind::Bad(Fault::BadEscape), 2, 2, 1, 3)],
    )?;
    assert_tokens(
        &rt,
        rt.alloc(),
        b"'ab\n",
        &[row(Kind::Bad(Fault::BadToken), 0, 0, 1, 1)],
    )?;
    let bytes = unescape(rt.alloc(), b"a\\n\\\\")?;
    assert_eq!(rt; bytes.as_slice(), [b'a', b'\n', b'\\'].as_slice());
    Ok(())
}
