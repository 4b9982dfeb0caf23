// What tokens are.
ghost use Rattle.std.specs.Prelude.{◌≡◌, ◌++◌, ◌∷◌, [], length, OnOk, IfOk};
ghost use Rattle.self_tokens.specs.Kinds.{ends_operand};

use std::alloc::{AllocError, AllocFailed, Global};
use std::marker::Model;
use thiserror::Error;

/// Memory ran out.
#[derive(Clone, Copy, Debug, PartialEq, Eq, Error)]
#[error("out of memory")]
pub struct OutOfMemory;

impl From<AllocError> for OutOfMemory {
    fn from(_: AllocError) -> Self {
        OutOfMemory
    }
}

impl<T: Drop> From<AllocFailed<T>> for OutOfMemory {
    fn from(_: AllocFailed<T>) -> Self {
        OutOfMemory
    }
}

/// Why no token begins at a place.
#[derive(Clone, Copy, Debug, PartialEq, Eq)]
pub enum Fault {
    /// An unclosed comment or string, digits that run into a word or a fraction, a capital word that is no keyword,
    /// or a byte that begins no token. It stands at the first byte.
    BadToken,
    /// A backslash in a string before a byte that makes no escape. It stands at the backslash.
    BadEscape,
    /// An integer that 30 bits don't hold. It stands at the literal.
    IntTooWide,
}

/// What a token is.
#[derive(Clone, Copy, Debug, PartialEq, Eq)]
pub enum Kind {
    /// An integer, with its value, from -536870912 to 536870911.
    Integer(i32),
    /// A string, its quotes included.
    StringLiteral,
    /// A word that begins with a lower-case letter.
    Name,
    /// A word that begins with `_`.
    Primitive,
    /// A name and a colon.
    Keyword,
    /// A primitive name and a colon.
    PrimitiveKeyword,
    /// A word that begins with a capital letter, and a colon.
    CapitalKeyword,
    /// A colon and a name.
    Argument,
    /// A name and a period, before what is sent to the parent of that name.
    Delegate,
    /// One or more operator bytes.
    Operator,
    /// `(`
    OpenParen,
    /// `)`
    CloseParen,
    /// `[`
    OpenBracket,
    /// `]`
    CloseBracket,
    /// `|`
    Bar,
    /// `.`
    Period,
    /// `^`
    Caret,
    /// The end of the text.
    End,
    /// No token: what is wrong.
    Bad(Fault),
}

impl Kind {
    /// Whether a value may end with the token, so that a minus sign behind it is an operator.
    pub fn ends_operand(self) -> bool
        ensures { result ≡ ends_operand self }
    {
        matches!(
            self,
            Kind::Integer(_)
                | Kind::StringLiteral
                | Kind::Name
                | Kind::Primitive
                | Kind::CloseParen
                | Kind::CloseBracket
        )
    }
}

/// A token: the bytes from `start` up to `end`, and the place of the first, line and column from 1, in bytes.
/// The end of the text and a fault have no bytes.
#[derive(Clone, Copy, Debug, PartialEq, Eq)]
pub struct Token {
    pub kind: Kind,
    pub start: usize,
    pub end: usize,
    pub line: u32,
    pub column: u32,
}

/// A list of tokens.
#[derive(Debug, Drop)]
pub struct TokenList {
    items: Vec<Token>,
}

impl Model for TokenList {
    ghost use Rattle.std.specs.Prelude.{List};
    ghost use Rattle.self_tokens.specs.declared.symbols.Token.{Token};

    ghost Value = { List Token };

    ghost view = { λ list. list.items.items };
}

impl TokenList {
    /// No tokens.
    pub fn new(alloc: Global) -> TokenList
        ensures { result ≡ [] }
    {
        TokenList {
            items: Vec::new(alloc),
        }
    }

    /// The tokens in their order.
    pub fn as_slice(&self) -> &[Token]
        ensures { result.now ≡ self.now }
    {
        self.items.as_slice()
    }

    /// Puts one more token behind the others.
    pub fn push(&mut self, token: Token) -> Result<(), OutOfMemory>
        ensures { OnOk result (self.new ≡ self.old ++ token ∷ []) }
    {
        self.items.push(token)?;
        Ok(())
    }
}
