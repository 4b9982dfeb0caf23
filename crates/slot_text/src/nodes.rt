// The nodes of a body, as a world's text has them.
ghost use Rattle.std.specs.Prelude.{◌≡◌, IfOk, OnOk};
ghost use Rattle.self_terms.specs.Bodies.{sought};
ghost use Rattle.world_build.specs.Nodes.{found, byte, selector, reading, storing, implied, message, returning, node_of, beside, at_innermost, with_node};
ghost use Rattle.world_build.specs.Loading.{innermost};
ghost use Rattle.world_build.specs.Steps.{HasRoom};
ghost use Rattle.world_build.specs.SlotTexts.{builds};
ghost use Rattle.slot_text.specs.Telling.{shown};

use crate::naming::words;
use crate::teller::{Teller, place};
use self_grammar::{Made, Target, TextNode, Words};
use self_terms::{BodyId, Name, Node, Place, Selector};
use std::alloc::{AllocError, Global};

fn byte(number: usize) -> u8
    ensures { result ≡ byte number }
{
    if number <= 255 {
        return number as u8;
    }
    255
}

fn selector(name: u32, args: usize) -> Selector
    ensures { result ≡ selector name args }
{
    Selector {
        name: Name(name),
        args: byte(args),
    }
}

fn reading(local: Option<(usize, usize)>, name: u32) -> Node
    ensures { result ≡ reading local name }
{
    match local {
        None => Node::SelfSend(selector(name, 0)),
        Some((up, slot)) => Node::Read {
            up: byte(up),
            slot: byte(slot),
        },
    }
}

fn storing(local: Option<(usize, usize)>, name: u32) -> Node
    ensures { result ≡ storing local name }
{
    match local {
        None => Node::SelfSend(selector(name, 1)),
        Some((up, slot)) => Node::Store {
            up: byte(up),
            slot: byte(slot),
        },
    }
}

impl Teller {
    // The first local that has a name, or that a name assigns, in the open bodies from the innermost outwards: how many bodies
    // out, and its number there.
    fn found(&self, assigning: bool, name: u32) -> Option<(usize, usize)>
        ensures { result ≡ found (sought assigning name) 0 self.now.bodies (shown self.now).loading.around }
    {
        for up in 0..self.around.len() {
            match self.around.get(up).copied() {
                None => return None,
                Some(body) => {
                    if let Some(slot) = self.bodies.local(body, assigning, name) {
                        return Some((up, slot));
                    }
                }
            }
        }
        None
    }

    // A message with nothing before it: of one part and no argument it reads a local, with one it assigns one.
    fn implied(&self, words: Words, name: u32, args: usize) -> Node
        ensures { result ≡ implied (shown self.now).loading words name args }
    {
        match (words, args) {
            (Words::One(_), 0) => reading(self.found(false, name), name),
            (Words::One(_), 1) => storing(self.found(true, name), name),
            _ => Node::SelfSend(selector(name, args)),
        }
    }

    fn message(&self, to: Target, words: Words, name: u32, args: usize) -> Node
        ensures { result ≡ message (shown self.now).loading to words name args }
    {
        match to {
            Target::Given => Node::Send(selector(name, args)),
            Target::Implied => self.implied(words, name, args),
            Target::Parents => Node::Resend(selector(name, args)),
            Target::Parent(parent) => Node::Directed {
                parent: Name(parent),
                sel: selector(name, args),
            },
        }
    }

    // `^` returns from a method, and from a block's home method.
    fn returning(&self) -> Node
        ensures { result ≡ returning (shown self.now).loading }
    {
        if self.bodies.is_block(self.innermost()) {
            return Node::NonLocal;
        }
        Node::Return
    }

    // The node that a text's node stands for, with what it adds beside itself.
    fn make(&mut self, alloc: Global, bytes: &[u8], node: TextNode) -> Result<Node, AllocError>
        requires { HasRoom (shown self.old).loading }
        ensures node { IfOk result (λ made. made ≡ node_of (shown self.old).loading node) }
        ensures beside { OnOk result (shown self.new ≡ builds (beside bytes.now node (shown self.old).loading) (shown self.old)) }
    {
        match node {
            TextNode::Integer(int) => Ok(Node::Int(int)),
            TextNode::Text { start, end } => {
                let object = self.next_string();
                self.add_string(alloc, bytes, start, end)?;
                Ok(Node::Str(object))
            }
            TextNode::Block => Ok(Node::BlockLit(BodyId(self.bodies.len() as u32 + 1))),
            TextNode::Itself => Ok(Node::SelfRef),
            TextNode::Nil => Ok(Node::Nil),
            TextNode::Message {
                to,
                words: parts,
                args,
            } => {
                let name = words(alloc, &mut self.names, parts)?;
                Ok(self.message(to, parts, name, args))
            }
            TextNode::Primitive {
                words: parts,
                args,
                implied,
                handler,
            } => {
                let name = words(alloc, &mut self.names, parts)?;
                Ok(Node::Prim {
                    name: Name(name),
                    args: byte(args),
                    implied,
                    handler,
                })
            }
            TextNode::Drop => Ok(Node::Drop),
            TextNode::Restart => Ok(Node::Restart),
            TextNode::Return => Ok(self.returning()),
            TextNode::End => Ok(Node::End),
        }
    }

    // A node of the body that is open innermost.
    fn put_node(&mut self, node: Node, place: Place) -> Result<(), AllocError>
        ensures { OnOk result (shown self.new ≡ builds (at_innermost (innermost (shown self.old).loading.around) node place (shown self.old).loading) (shown self.old)) }
    {
        match self.innermost() {
            None => Ok(()),
            Some(body) => {
                self.bodies.add_node(body, node, place)?;
                Ok(())
            }
        }
    }

    pub fn add_node(&mut self, alloc: Global, bytes: &[u8], made: Made) -> Result<(), AllocError>
        requires { HasRoom (shown self.old).loading }
        ensures { OnOk result (shown self.new ≡ builds (with_node bytes.now made (shown self.old).loading) (shown self.old)) }
    {
        let node = self.make(alloc, bytes, made.node)?;
        self.put_node(node, place(made.spot))?;
        self.size += 1;
        Ok(())
    }
}
