// Where the next sign stands: what it stands behind, and what is open around it, innermost first.
ghost use Rattle.std.specs.Prelude.{◌≡◌};
ghost use Rattle.reader_states.specs.declared.frames.Stop.TheVariants.{OutOfMemory};

use crate::counts::{Counts, Event, Post};
use crate::scopes::Scope;
use crate::stack::Stack;
use self_grammar::{Item, Made, Role, Spot, Target, Words};
use std::alloc::{AllocError, AllocFailed};

/// The name of a slot, with that of its assignment slot.
#[derive(Clone, Copy)]
pub struct Label {
    pub name: u32,
    pub setter: u32,
    pub spot: Spot,
}

/// The name of a method slot: its parts, how many, how many arguments the method must have, and the place of the slot.
#[derive(Clone, Copy)]
pub struct Heading {
    pub words: Words,
    pub wanted: usize,
    pub spot: Spot,
}

/// A keyword message whose last argument is read.
#[derive(Clone, Copy)]
pub struct Message {
    pub to: Target,
    pub words: Words,
    /// Of a primitive: its first part without 'IfFail:', where it ends so.
    pub base: Option<Option<u32>>,
    pub handled: bool,
    pub spot: Spot,
}

/// Whose slots a list has: the world's, those between bars of what may be a method, or those of an object (these two with
/// the place of their parenthesis).
#[derive(Clone, Copy)]
pub enum Holder {
    World,
    Bars(Spot),
    Object(Spot),
}

/// Where a slot stands: in a list, with what is known of it, or alone in an edit.
#[derive(Drop)]
pub enum Slots {
    List(Holder, Scope),
    Edit,
}

/// What a slot holds: what may yet be an object or a method, a method, and two kinds of contents that are none.
#[derive(Clone, Copy)]
pub enum Contents {
    Undecided(Label),
    Coded(Heading),
    Assigned(Label),
    Parental(Label),
}

/// Whose code it is: a method's, or a block's, with its bars or without.
#[derive(Clone, Copy)]
pub enum Body {
    Method,
    Block { barred: bool },
}

/// Where an expression stands: a statement, the first or a later one; behind '^'; in parentheses.
#[derive(Clone, Copy)]
pub enum Expression {
    Statement { later: bool },
    Returning(Spot),
    Group,
}

/// An operand behind an operator, and the node that is made behind it.
#[derive(Clone, Copy)]
pub struct Operand {
    pub operator: u32,
    pub role: Role,
    pub made: Made,
}

/// What is open.
#[derive(Drop)]
pub enum Frame {
    Slots(Slots),
    /// The list between the bars of a block.
    Locals(Scope),
    Slot(Contents),
    Body(Body),
    Expression(Expression),
    /// The argument of a keyword message.
    Argument(Message),
    Right(Operand),
}

/// In code: a unary is wanted; there is one; there is a delegate; behind the period of a return.
#[derive(Clone, Copy)]
pub enum AtCode {
    Wanting,
    Having,
    Delegated { to: Target, spot: Spot },
    Ended,
}

/// In the name of a slot: a slot is wanted; there is a part of its name.
#[derive(Clone, Copy)]
pub enum AtName {
    Slot,
    Named(Label),
    Starred(Label),
    Operator { operator: u32, spot: Spot },
    Keyword(Heading),
}

/// In the name of a slot that has arguments: behind that of an operator, behind that of a keyword, and where one is wanted.
#[derive(Clone, Copy)]
pub enum AtArgument {
    Operator { operator: u32, spot: Spot },
    Keyword(Heading),
    Wanting(Heading),
}

/// In the contents of a slot: they are wanted, and may be a method; a parenthesis has opened at this place, or the bars
/// behind it have closed; the same bars of what is surely no method.
#[derive(Clone, Copy)]
pub enum AtContents {
    Wanted,
    Opened(Spot),
    Shut(Spot),
    DataShut(Spot),
}

/// In contents that are no method: they are wanted; a parenthesis has opened at this place.
#[derive(Clone, Copy)]
pub enum AtData {
    Wanted,
    Opened(Spot),
}

/// Behind what a slot ends with: a method; other contents, with the slot's item, where a path may go on; an argument; the
/// period of an edit.
#[derive(Clone, Copy)]
pub enum AtEnd {
    Method,
    Member { item: Item, path: bool },
    Argument,
    Edit,
}

/// In the slots of a block: one is wanted; there is its name; its contents are wanted; there is the slot, which ends with
/// this item, where a path may go on. An argument has no item.
#[derive(Clone, Copy)]
pub enum AtLocal {
    Slot,
    Named(Label),
    Equals(Label),
    Arrow(Label),
    Done { item: Option<Item>, path: bool },
}

/// Where the next sign stands.
#[derive(Drop)]
pub enum At {
    Code(AtCode),
    Name(AtName),
    /// With the arguments that are named so far.
    Argued(AtArgument, Scope),
    /// With what is known of the slots of a method there.
    Contents(AtContents, Scope),
    Data(AtData),
    Behind(AtEnd),
    Local(AtLocal),
    Finished,
}

/// A sign was read: what was counted before it, what it does, what is counted behind it, and where the next one stands.
#[derive(Drop)]
pub struct Turn {
    pub counts: Counts,
    pub event: Event,
    pub post: Post,
    pub at: At,
    pub frames: Stack<Frame>,
}

/// Why a sign isn't read: no text goes on so, or memory ran out.
#[derive(Clone, Copy)]
pub enum Stop {
    BadSyntax,
    OutOfMemory,
}

impl From<AllocError> for Stop {
    ghost from_gives = { λ _ e. e ≡ OutOfMemory };

    fn from(_: AllocError) -> Self {
        Stop::OutOfMemory
    }
}

impl<T: Drop> From<AllocFailed<T>> for Stop {
    ghost from_gives = { λ _ e. e ≡ OutOfMemory };

    fn from(_: AllocFailed<T>) -> Self {
        Stop::OutOfMemory
    }
}
