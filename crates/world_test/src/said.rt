// Whether what nodes and locals say is there.
ghost use Rattle.std.specs.Prelude.{◌≡◌};
ghost use Rattle.self_terms.specs.declared.bodies.Local.{Local};
ghost use Rattle.source_model.specs.Testing.{each_passes, given_test, said_test, says_test};

use crate::names::{has_text, takes_test};
use crate::nodes::node_at;
use self_terms::{Body, Datum, Local, Names, Node, NodeList};

// Whether what a node says is there: a string, a name.
fn says_test(names: &Names, things: usize, node: Node) -> bool
    ensures { result ≡ says_test names.now things node }
{
    match node {
        Node::Str(object) => (object as usize) < things,
        Node::Send(sel) | Node::SelfSend(sel) | Node::Resend(sel) => {
            takes_test(names, sel.name.0, sel.args as usize)
        }
        Node::Directed { parent, sel } => {
            has_text(names, parent.0) && takes_test(names, sel.name.0, sel.args as usize)
        }
        Node::Prim { name, .. } => has_text(names, name.0),
        _ => true,
    }
}

// Whether an initial content is there.
fn given_test(things: usize, datum: Datum) -> bool
    ensures { result ≡ given_test things datum }
{
    match datum {
        Datum::Integer(_) => true,
        Datum::Object(object) => (object as usize) < things,
        Datum::Nil => true,
    }
}

// Whether what each node says is there.
fn nodes_said(names: &Names, things: usize, nodes: &NodeList) -> bool
    ensures { result ≡ each_passes (says_test names.now things) nodes.now }
{
    for k in 0..nodes.len() {
        if !says_test(names, things, node_at(nodes, k)) {
            return false;
        }
    }
    true
}

// Whether the initial content of each local is there.
fn locals_given(things: usize, locals: &[Local]) -> bool
    ensures { result ≡ each_passes (λ (x : Local). given_test things x.initial) locals.now }
{
    for local in locals {
        if !given_test(things, local.initial) {
            return false;
        }
    }
    true
}

/// Whether what a body says is there, and each node has its place.
pub fn said_test(names: &Names, things: usize, body: &Body) -> bool
    ensures { result ≡ said_test names.now things body.now }
{
    nodes_said(names, things, &body.nodes)
        && body.places.len() == body.nodes.len()
        && locals_given(things, body.locals.as_slice())
}
