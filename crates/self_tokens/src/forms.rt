// Which token, blank or fault begins a text.
ghost use Rattle.std.specs.Prelude.{◌≡◌, ◌≤◌, ◌<◌, ◌+◌, ◌^◌, false, length, MatchOption, slice_index, drop};
ghost use Rattle.std.specs.List.{prefix_len};
ghost use Rattle.std.specs.Char.{is_ascii_digit};
ghost use Rattle.self_tokens.specs.Classes.{is_blank, is_word_byte, is_operator_byte, is_no_comment_mark};
ghost use Rattle.self_tokens.specs.Forms.{decimal, signed, number, comment, runs_on, integer, text_len, sound_len, string, is_sent_to, name, primitive, capital, argument, single, worded, is_signed, whole, piece, LiesWithin};

use crate::classes::{is_blank, is_escape, is_operator_byte, is_word_byte};
use crate::symbols::{Fault, Kind};

/// What begins a text.
#[derive(Clone, Copy, Debug, PartialEq, Eq)]
pub enum Piece {
    /// Blanks or a comment: so many bytes.
    Blank(usize),
    /// A token of so many bytes.
    Whole(Kind, usize),
    /// A fault, behind so many bytes.
    Faulty(Fault, usize),
}

/// The byte at a place, 0 past the end.
fn byte_at(rest: &[u8], place: usize) -> u8
    ensures { result ≡ slice_index rest.now place }
{
    if place < rest.len() { rest[place] } else { 0 }
}

fn blank_len(rest: &[u8]) -> usize
    ensures len { result ≡ prefix_len is_blank rest.now }
    ensures bound { result ≤ length rest.now }
{
    rest.iter().take_while(|byte| is_blank(**byte)).count()
}

fn word_len(rest: &[u8]) -> usize
    ensures len { result ≡ prefix_len is_word_byte rest.now }
    ensures bound { result ≤ length rest.now }
{
    rest.iter().take_while(|byte| is_word_byte(**byte)).count()
}

fn operator_len(rest: &[u8]) -> usize
    ensures len { result ≡ prefix_len is_operator_byte rest.now }
    ensures bound { result ≤ length rest.now }
{
    rest.iter()
        .take_while(|byte| is_operator_byte(**byte))
        .count()
}

fn digit_len(rest: &[u8]) -> usize
    ensures len { result ≡ prefix_len is_ascii_digit rest.now }
    ensures bound { result ≤ length rest.now }
{
    rest.iter().take_while(|byte| byte.is_ascii_digit()).count()
}

fn comment_len(rest: &[u8]) -> usize
    ensures len { result ≡ prefix_len is_no_comment_mark rest.now }
    ensures bound { result ≤ length rest.now }
{
    rest.iter().take_while(|byte| **byte != b'"').count()
}

/// A comment, of which `rest` stands behind the first mark.
fn comment(rest: &[u8]) -> Piece
    ensures { result ≡ comment rest.now }
{
    let length = comment_len(rest);
    if length == rest.len() {
        return Piece::Faulty(Fault::BadToken, 0);
    }
    Piece::Blank(length + 2)
}

/// The number that the digits write, where it is at most 2 to the 29th.
fn magnitude(digits: &[u8]) -> Option<u32>
    ensures { MatchOption result (2 ^ 29 < decimal digits.now) (λ value. (value ≡ decimal digits.now) × (value ≤ 2 ^ 29)) }
{
    let mut value: u64 = 0;
    for digit in digits {
        value = value * 10 + u64::from(digit.saturating_sub(b'0'));
        if value > 1 << 29 {
            return None;
        }
    }
    Some(value as u32)
}

fn signed(negative: bool, value: u32) -> i32
    requires { value ≤ 2 ^ 29 }
    ensures { result ≡ signed negative value }
{
    let value = value as i32;
    if negative { -value } else { value }
}

/// An integer of these digits, which is `length` bytes long.
fn number(negative: bool, digits: &[u8], length: usize) -> Piece
    ensures { result ≡ number negative (decimal digits.now) length }
{
    let Some(value) = magnitude(digits) else {
        return Piece::Faulty(Fault::IntTooWide, 0);
    };
    if !negative && value == 1 << 29 {
        return Piece::Faulty(Fault::IntTooWide, 0);
    }
    Piece::Whole(Kind::Integer(signed(negative, value)), length)
}

/// Whether digits that end here run into a word, or into a fraction.
fn runs_on(rest: &[u8]) -> bool
    ensures { result ≡ runs_on rest.now }
{
    let first = byte_at(rest, 0);
    first.is_ascii_alphabetic()
        || first == b'_'
        || (first == b'.' && byte_at(rest, 1).is_ascii_digit())
}

/// An integer, of which `rest` begins with the first digit. Its sign has `sign` bytes, none or one.
fn integer(negative: bool, sign: usize, rest: &[u8]) -> Piece
    requires { sign ≤ 1 }
    ensures { result ≡ integer negative sign rest.now }
{
    let digits = digit_len(rest);
    if runs_on(&rest[digits..]) {
        return Piece::Faulty(Fault::BadToken, 0);
    }
    number(negative, &rest[..digits], sign + digits)
}

/// The bytes before the quote that closes a string, or all where none does.
fn text_len(rest: &[u8]) -> usize
    ensures len { result ≡ text_len false rest.now }
    ensures bound { result ≤ length rest.now }
{
    let mut escaped = false;
    for (index, byte) in rest.iter().enumerate() {
        if escaped {
            escaped = false;
            continue;
        }
        if *byte == b'\'' {
            return index;
        }
        escaped = *byte == b'\\';
    }
    rest.len()
}

/// The bytes before the first that is escaped and makes no escape, or all where there is none.
fn sound_len(text: &[u8]) -> usize
    ensures len { result ≡ sound_len false text.now }
    ensures bound { result ≤ length text.now }
{
    let mut escaped = false;
    for (index, byte) in text.iter().enumerate() {
        if escaped {
            if !is_escape(*byte) {
                return index;
            }
            escaped = false;
        } else {
            escaped = *byte == b'\\';
        }
    }
    text.len()
}

/// A string, of which `rest` stands behind the first quote.
fn string(rest: &[u8]) -> Piece
    ensures { result ≡ string rest.now }
{
    let length = text_len(rest);
    let sound = sound_len(&rest[..length]);
    if length == rest.len() {
        return Piece::Faulty(Fault::BadToken, 0);
    }
    if sound == length {
        return Piece::Whole(Kind::StringLiteral, length + 2);
    }
    Piece::Faulty(Fault::BadEscape, sound)
}

/// Whether a period behind a name makes a delegate of it.
fn is_sent_to(rest: &[u8]) -> bool
    ensures { result ≡ is_sent_to rest.now }
{
    let next = byte_at(rest, 1);
    byte_at(rest, 0) == b'.' && (next.is_ascii_lowercase() || is_operator_byte(next))
}

fn name(rest: &[u8]) -> Piece
    ensures { result ≡ name rest.now }
{
    let length = word_len(rest);
    let behind = &rest[length..];
    if byte_at(behind, 0) == b':' {
        return Piece::Whole(Kind::Keyword, length + 1);
    }
    if is_sent_to(behind) {
        return Piece::Whole(Kind::Delegate, length + 1);
    }
    Piece::Whole(Kind::Name, length)
}

fn primitive(rest: &[u8]) -> Piece
    ensures { result ≡ primitive rest.now }
{
    let length = word_len(rest);
    if length == 1 {
        return Piece::Faulty(Fault::BadToken, 0);
    }
    if byte_at(&rest[length..], 0) == b':' {
        return Piece::Whole(Kind::PrimitiveKeyword, length + 1);
    }
    Piece::Whole(Kind::Primitive, length)
}

fn capital(rest: &[u8]) -> Piece
    ensures { result ≡ capital rest.now }
{
    let length = word_len(rest);
    if byte_at(&rest[length..], 0) != b':' {
        return Piece::Faulty(Fault::BadToken, 0);
    }
    Piece::Whole(Kind::CapitalKeyword, length + 1)
}

fn argument(rest: &[u8]) -> Piece
    requires { 0 < length rest.now }
    ensures { result ≡ argument rest.now }
{
    if byte_at(rest, 1).is_ascii_lowercase() {
        return Piece::Whole(Kind::Argument, 1 + word_len(&rest[1..]));
    }
    Piece::Faulty(Fault::BadToken, 0)
}

fn single(byte: u8) -> Piece
    ensures { result ≡ single byte }
{
    match byte {
        b'(' => Piece::Whole(Kind::OpenParen, 1),
        b')' => Piece::Whole(Kind::CloseParen, 1),
        b'[' => Piece::Whole(Kind::OpenBracket, 1),
        b']' => Piece::Whole(Kind::CloseBracket, 1),
        b'|' => Piece::Whole(Kind::Bar, 1),
        b'.' => Piece::Whole(Kind::Period, 1),
        b'^' => Piece::Whole(Kind::Caret, 1),
        _ => Piece::Faulty(Fault::BadToken, 0),
    }
}

/// A name, a primitive name, a keyword, an argument or a token of one byte.
fn worded(first: u8, rest: &[u8]) -> Piece
    requires { 0 < length rest.now }
    ensures { result ≡ worded first rest.now }
{
    if first.is_ascii_lowercase() {
        return name(rest);
    }
    if first == b'_' {
        return primitive(rest);
    }
    if first.is_ascii_uppercase() {
        return capital(rest);
    }
    if first == b':' {
        return argument(rest);
    }
    single(first)
}

/// Whether a text begins with the sign of an integer.
fn is_signed(behind_operand: bool, rest: &[u8]) -> bool
    ensures { result ≡ is_signed behind_operand rest.now }
{
    !behind_operand && byte_at(rest, 0) == b'-' && byte_at(rest, 1).is_ascii_digit()
}

/// A token.
fn whole(behind_operand: bool, rest: &[u8]) -> Piece
    requires { 0 < length rest.now }
    ensures { result ≡ whole behind_operand rest.now }
{
    let first = rest[0];
    if first.is_ascii_digit() {
        return integer(false, 0, rest);
    }
    if is_signed(behind_operand, rest) {
        return integer(true, 1, &rest[1..]);
    }
    if is_operator_byte(first) {
        return Piece::Whole(Kind::Operator, operator_len(rest));
    }
    if first == b'\'' {
        return string(&rest[1..]);
    }
    worded(first, rest)
}

/// A blank, a comment or a token.
fn begin(behind_operand: bool, rest: &[u8]) -> Piece
    requires { 0 < length rest.now }
    ensures { result ≡ piece behind_operand rest.now }
{
    let first = rest[0];
    if is_blank(first) {
        return Piece::Blank(blank_len(rest));
    }
    if first == b'"' {
        return comment(&rest[1..]);
    }
    whole(behind_operand, rest)
}

/// What begins a text that isn't empty, behind a token that ends an operand or not.
pub fn next_piece(behind_operand: bool, rest: &[u8]) -> Piece
    requires { 0 < length rest.now }
    ensures exact { result ≡ piece behind_operand rest.now }
    ensures within { LiesWithin result (length rest.now) }
{
    begin(behind_operand, rest)
}
