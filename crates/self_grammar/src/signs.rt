// Signs: what the grammar sees of a token.
use self_tokens::Fault;

/// Line and column of a byte in its text, both from 1.
#[derive(Clone, Copy, Debug, PartialEq, Eq)]
pub struct Spot {
    pub line: u32,
    pub column: u32,
}

/// Whether a name is one that no slot may have.
#[derive(Clone, Copy, Debug, PartialEq, Eq)]
pub enum Reserved {
    /// Any other name.
    Free,
    /// `self`, the receiver.
    Itself,
    /// `resend`.
    Resend,
}

/// What an operator means between a slot's name and its contents.
#[derive(Clone, Copy, Debug, PartialEq, Eq)]
pub enum Role {
    /// `=`, a constant slot.
    Equals,
    /// `<-`, an assignable slot.
    Arrow,
    /// `*`, a parent slot.
    Star,
    /// Any other operator.
    Other,
}

/// A token, with the number of its name. A setter is the number of the name with a colon behind it.
#[derive(Clone, Copy, Debug, PartialEq, Eq)]
pub enum Symbol {
    Integer(i32),
    /// A string, by the bytes between its quotes.
    Text {
        start: usize,
        end: usize,
    },
    Name {
        name: u32,
        setter: u32,
        reserved: Reserved,
    },
    /// A primitive name other than `_Restart`.
    Primitive(u32),
    /// `_Restart`
    Restart,
    Keyword(u32),
    /// A primitive keyword, and the number of the name without `IfFail:` where it is longer than `_IfFail:` and ends so.
    PrimitiveKeyword {
        name: u32,
        handled: Option<u32>,
    },
    /// `_Restart:` or `_RestartIfFail:`, which begin no message.
    RestartKeyword,
    /// A capital keyword, and whether it is `IfFail:`.
    CapitalKeyword {
        name: u32,
        handles: bool,
    },
    Argument {
        name: u32,
        setter: u32,
        reserved: Reserved,
    },
    Delegate {
        name: u32,
        reserved: Reserved,
    },
    Operator {
        name: u32,
        role: Role,
    },
    OpenParen,
    CloseParen,
    OpenBracket,
    CloseBracket,
    Bar,
    Period,
    Caret,
    End,
    Bad(Fault),
}

/// A symbol and the place of its first byte.
#[derive(Clone, Copy, Debug, PartialEq, Eq)]
pub struct Sign {
    pub symbol: Symbol,
    pub spot: Spot,
}

/// Why a text is refused, in the order in which the kinds count at one sign.
#[derive(Clone, Copy, Debug, PartialEq, Eq)]
pub enum ReadKind {
    BadToken,
    BadEscape,
    IntTooWide,
    BadSyntax,
    TooDeep,
    TooManyArgs,
    TooManyLocals,
    DuplicateSlot,
    TooManyNodes,
}

/// A refusal: its kind, and the place that is at fault.
#[derive(Clone, Copy, Debug, PartialEq, Eq)]
pub struct ReadRefusal {
    pub kind: ReadKind,
    pub spot: Spot,
}
