// The nodes of a body: what one step of the source does, and where it stands in the text.

use crate::names::Name;
use crate::values::BodyId;

/// A message's name, and how many arguments it takes, from 0 to 5.
#[derive(Clone, Copy, PartialEq, Eq, Debug)]
pub struct Selector {
    pub name: Name,
    pub args: u8,
}

/// A byte of a text: line and column in bytes, both from 1. `edit` is 0 for the world file and K for the K-th
/// accepted edit.
#[derive(Clone, Copy, PartialEq, Eq, Debug)]
pub struct Place {
    pub edit: u32,
    pub line: u32,
    pub column: u32,
}

/// One step of a body. The nodes of an expression are those of the receiver, of the arguments in order, then the
/// message itself.
#[derive(Clone, Copy, PartialEq, Eq, Debug)]
pub enum Node {
    /// An integer literal, within 30 bits: pends it.
    Int(i32),
    /// A string literal, by the number of its object: pends it.
    Str(u32),
    /// A block literal: pends a block of that body, made by this activation.
    BlockLit(BodyId),
    /// `self`: pends the receiver.
    SelfRef,
    /// The value of an empty block: pends nil.
    Nil,
    /// A local, `up` bodies out: pends its value.
    Read {
        up: u8,
        slot: u8,
    },
    /// An assignment of a local, `up` bodies out: takes a value, sets the local, pends the receiver.
    Store {
        up: u8,
        slot: u8,
    },
    /// A message with a receiver: takes arguments and receiver.
    Send(Selector),
    /// A message to the activation's own receiver: takes arguments.
    SelfSend(Selector),
    /// `resend.m`: takes arguments, looks in the parents of the method holder.
    Resend(Selector),
    /// `p.m`: takes arguments, looks in one parent of the method holder.
    Directed {
        parent: Name,
        sel: Selector,
    },
    /// A primitive: takes its handler, its arguments and, where it isn't implied, its receiver.
    Prim {
        name: Name,
        args: u8,
        implied: bool,
        handler: bool,
    },
    /// The end of a statement: drops one value.
    Drop,
    /// `_Restart`: goes to the first node.
    Restart,
    /// `^` in a method: answers the value.
    Return,
    /// `^` in a block: returns from the home method.
    NonLocal,
    /// The end of a body: answers the value.
    End,
}
