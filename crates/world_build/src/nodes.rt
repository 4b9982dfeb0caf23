// The nodes of a body.
ghost use Rattle.std.specs.Prelude.{◌≡◌, IfOk, OnOk};
ghost use Rattle.self_terms.specs.Bodies.{sought};
ghost use Rattle.world_build.specs.Nodes.{found, byte, selector, reading, storing, implied, message, returning, node_of, beside, at_innermost, with_node};
ghost use Rattle.world_build.specs.Loading.{innermost};
ghost use Rattle.world_build.specs.Steps.{HasRoom};

use crate::loading::{Loading, body_in, place};
use crate::values::Open;
use self_grammar::{Made, Target, TextNode, Words};
use self_terms::{BodyId, Name, Node, Place, Selector};
use std::alloc::{AllocError, Global};

fn byte(number: usize) -> u8
    ensures { result ≡ byte number }
{
    if number <= 255 {
        return number as u8;
    }
    255
}

fn selector(name: u32, args: usize) -> Selector
    ensures { result ≡ selector name args }
{
    Selector {
        name: Name(name),
        args: byte(args),
    }
}

fn reading(local: Option<(usize, usize)>, name: u32) -> Node
    ensures { result ≡ reading local name }
{
    match local {
        None => Node::SelfSend(selector(name, 0)),
        Some((up, slot)) => Node::Read {
            up: byte(up),
            slot: byte(slot),
        },
    }
}

fn storing(local: Option<(usize, usize)>, name: u32) -> Node
    ensures { result ≡ storing local name }
{
    match local {
        None => Node::SelfSend(selector(name, 1)),
        Some((up, slot)) => Node::Store {
            up: byte(up),
            slot: byte(slot),
        },
    }
}

impl Loading {
    // The first local that has a name, or that a name assigns, in the open bodies from the innermost outwards up to the first
    // object: how many bodies out, and its number there.
    fn found(&self, assigning: bool, name: u32) -> Option<(usize, usize)>
        ensures { result ≡ found (sought assigning name) 0 self.now.bodies self.now.around }
    {
        for up in 0..self.around.len() {
            match self.around.get(up).copied() {
                None => return None,
                Some(Open::InObject(_)) => return None,
                Some(Open::InBody(body)) => {
                    if let Some(slot) = self.bodies.local(body, assigning, name) {
                        return Some((up, slot));
                    }
                }
            }
        }
        None
    }

    // A message with nothing before it: of one part and no argument it reads a local, with one it assigns one.
    fn implied(&self, words: Words, name: u32, args: usize) -> Node
        ensures { result ≡ implied self.now words name args }
    {
        match (words, args) {
            (Words::One(_), 0) => reading(self.found(false, name), name),
            (Words::One(_), 1) => storing(self.found(true, name), name),
            _ => Node::SelfSend(selector(name, args)),
        }
    }

    fn message(&self, to: Target, words: Words, name: u32, args: usize) -> Node
        ensures { result ≡ message self.now to words name args }
    {
        match to {
            Target::Given => Node::Send(selector(name, args)),
            Target::Implied => self.implied(words, name, args),
            Target::Parents => Node::Resend(selector(name, args)),
            Target::Parent(parent) => Node::Directed {
                parent: Name(parent),
                sel: selector(name, args),
            },
        }
    }

    // `^` returns from a method, and from a block's home method.
    fn returning(&self) -> Node
        ensures { result ≡ returning self.now }
    {
        if self.bodies.is_block(body_in(self.innermost())) {
            return Node::NonLocal;
        }
        Node::Return
    }

    // The node that a text's node stands for, with what it adds beside itself.
    fn make(&mut self, alloc: Global, bytes: &[u8], node: TextNode) -> Result<Node, AllocError>
        requires { HasRoom self.old }
        ensures node { IfOk result (λ made. made ≡ node_of self.old node) }
        ensures beside { OnOk result (self.new ≡ beside bytes.now node self.old) }
    {
        match node {
            TextNode::Integer(int) => Ok(Node::Int(int)),
            TextNode::Text { start, end } => {
                let object = self.things.len() as u32;
                self.add_string(alloc, bytes, start, end)?;
                Ok(Node::Str(object))
            }
            TextNode::Block => Ok(Node::BlockLit(BodyId(self.bodies.len() as u32 + 1))),
            TextNode::Itself => Ok(Node::SelfRef),
            TextNode::Nil => Ok(Node::Nil),
            TextNode::Message { to, words, args } => {
                let name = self.names.words(alloc, words)?;
                Ok(self.message(to, words, name, args))
            }
            TextNode::Primitive {
                words,
                args,
                implied,
                handler,
            } => {
                let name = self.names.words(alloc, words)?;
                Ok(Node::Prim {
                    name: Name(name),
                    args: byte(args),
                    implied,
                    handler,
                })
            }
            TextNode::Drop => Ok(Node::Drop),
            TextNode::Restart => Ok(Node::Restart),
            TextNode::Return => Ok(self.returning()),
            TextNode::End => Ok(Node::End),
        }
    }

    // A node of the body that is open innermost.
    fn put_node(&mut self, node: Node, place: Place) -> Result<(), AllocError>
        ensures { OnOk result (self.new ≡ at_innermost (innermost self.old.around) node place self.old) }
    {
        match self.innermost() {
            None => Ok(()),
            Some(Open::InObject(_)) => Ok(()),
            Some(Open::InBody(body)) => {
                self.bodies.add_node(body, node, place)?;
                Ok(())
            }
        }
    }

    pub fn add_node(&mut self, alloc: Global, bytes: &[u8], made: Made) -> Result<(), AllocError>
        requires { HasRoom self.old }
        ensures { OnOk result (self.new ≡ with_node bytes.now made self.old) }
    {
        let node = self.make(alloc, bytes, made.node)?;
        self.put_node(node, place(made.spot))?;
        self.size += 1;
        Ok(())
    }
}
