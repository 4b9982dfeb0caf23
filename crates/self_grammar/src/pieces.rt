// What a text says, piece by piece, in the order in which it is read.
ghost use Rattle.std.specs.Prelude.{◌≡◌};
ghost use Rattle.self_grammar.specs.Parts.{count_of, followed_by};

use crate::signs::{ReadKind, Spot};

/// The name of a slot or message, as the numbers of its parts in order: one for all but those of several keywords.
#[derive(Clone, Copy, Debug, PartialEq, Eq, Hash)]
pub enum Words {
    One(u32),
    Two(u32, u32),
    Three(u32, u32, u32),
    Four(u32, u32, u32, u32),
    Five(u32, u32, u32, u32, u32),
}

impl Words {
    /// The name with one part more. A sixth is left out: a text that has one is refused there.
    pub fn followed_by(self, part: u32) -> Words
        ensures { result ≡ followed_by self part }
    {
        match self {
            Words::One(a) => Words::Two(a, part),
            Words::Two(a, b) => Words::Three(a, b, part),
            Words::Three(a, b, c) => Words::Four(a, b, c, part),
            Words::Four(a, b, c, d) => Words::Five(a, b, c, d, part),
            Words::Five(_, _, _, _, _) => self,
        }
    }

    /// How many parts there are.
    pub fn count(self) -> usize
        ensures { result ≡ count_of self }
    {
        match self {
            Words::One(_) => 1,
            Words::Two(_, _) => 2,
            Words::Three(_, _, _) => 3,
            Words::Four(_, _, _, _) => 4,
            Words::Five(_, _, _, _, _) => 5,
        }
    }
}

/// What a message is sent to.
#[derive(Clone, Copy, Debug, PartialEq, Eq)]
pub enum Target {
    /// The value before it.
    Given,
    /// Nothing is written: a local of this name, or else the receiver.
    Implied,
    /// `resend`: the parents of the method holder.
    Parents,
    /// The parent slot of this name.
    Parent(u32),
}

/// A node of a body as the text says it, names not yet resolved. `args` counts the arguments without a handler.
#[derive(Clone, Copy, Debug, PartialEq, Eq)]
pub enum TextNode {
    Integer(i32),
    /// A string, by the bytes between its quotes.
    Text {
        start: usize,
        end: usize,
    },
    /// A block literal: the next body that opens.
    Block,
    /// `self`
    Itself,
    /// The value of an empty block.
    Nil,
    Message {
        to: Target,
        words: Words,
        args: usize,
    },
    Primitive {
        words: Words,
        args: usize,
        implied: bool,
        handler: bool,
    },
    /// The end of a statement.
    Drop,
    Restart,
    /// `^`
    Return,
    /// The end of a body.
    End,
}

/// A node and its place.
#[derive(Clone, Copy, Debug, PartialEq, Eq)]
pub struct Made {
    pub node: TextNode,
    pub spot: Spot,
}

/// What a slot is.
#[derive(Clone, Copy, Debug, PartialEq, Eq)]
pub enum SlotForm {
    /// `x = ..`, by contents that are no method.
    Constant,
    /// `x <- ..`, with the name of its assignment slot.
    Assignable { setter: u32 },
    /// `x` alone, which holds nil, with the name of its assignment slot.
    Bare { setter: u32 },
    /// `x* = ..`
    Parent,
    /// A slot with a method.
    Method,
}

/// One item of a text. Items stand in the order of the text: a slot behind its contents, an object or body from where it
/// opens to where it closes.
#[derive(Clone, Copy, Debug, PartialEq, Eq)]
pub enum Item {
    /// A node of the innermost open body.
    Node(Made),
    /// An object, or the body of a method or block, opens; which of them is told where it closes.
    Opened(Spot),
    ClosedObject,
    ClosedBody,
    /// Contents: an integer,
    Integer(i32),
    /// a string, by the bytes between its quotes,
    Text {
        start: usize,
        end: usize,
    },
    /// or a path: its first name,
    Root {
        name: u32,
        spot: Spot,
    },
    /// and the names behind it.
    Further {
        name: u32,
        spot: Spot,
    },
    /// An argument between the bars of what is open.
    Argument(u32),
    /// An argument that a slot names before its '=': one of the body that opens next.
    Named(u32),
    /// A slot of what is open ends; its contents stand before it. The place is that of its first sign.
    Slot {
        words: Words,
        form: SlotForm,
        spot: Spot,
    },
}

/// A rule that is broken: its kind, and its place where that isn't the sign at which it is known.
#[derive(Clone, Copy, Debug, PartialEq, Eq)]
pub struct Breach {
    pub kind: ReadKind,
    pub place: Option<Spot>,
}

/// The pending values and the nodes of a body, while another one is read inside it.
#[derive(Clone, Copy, Debug, PartialEq, Eq)]
pub struct Held {
    pub pending: usize,
    pub nodes: usize,
}

/// The limits of a text.
#[derive(Clone, Copy, Debug, PartialEq, Eq)]
pub struct Limits {
    /// Open parentheses, brackets and keyword messages, one inside the other.
    pub nesting: u32,
    /// Pending values of a body.
    pub pending: u32,
    /// Arguments of a body, and keyword parts of a message.
    pub arguments: u32,
    /// Locals of a body, without its arguments.
    pub locals: u32,
    /// Nodes of a body.
    pub body: u32,
    /// Slots, arguments and locals among them, objects and nodes of all.
    pub size: u32,
}
