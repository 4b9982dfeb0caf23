// Whether each node of a body finds the values that it takes and what it names.
ghost use Rattle.std.specs.Prelude.{◌≡◌, ◌<◌, ◌≤◌, ◌+◌, ◌^◌, ◌&&◌, ◌||◌, length, nat_lt, not, slice_get, Some};
ghost use Rattle.self_terms.specs.Depths.{depth, grown, is_inner, left_by, taken};
ghost use Rattle.source_model.specs.Soundness.{body_in};
ghost use Rattle.source_model.specs.Testing.{below_pass, fit_test, is_number, names_test, node_test};

use crate::bodies::{body_test, local_test, outer_in, outer_test};
use self_terms::{Body, BodyId, Node, NodeList};
use world_build::World;

// How many pending values a node takes.
fn taken(node: Node) -> usize
    ensures { result ≡ taken node }
{
    match node {
        Node::Send(selector) => selector.args as usize + 1,
        Node::SelfSend(selector) | Node::Resend(selector) => selector.args as usize,
        Node::Directed { sel, .. } => sel.args as usize,
        Node::Prim {
            args,
            implied,
            handler,
            ..
        } => args as usize + (!implied) as usize + handler as usize,
        Node::Store { .. } | Node::Drop | Node::Return | Node::NonLocal | Node::End => 1,
        _ => 0,
    }
}

// How many it leaves in their place.
fn left_by(node: Node) -> usize
    ensures { result ≡ left_by node }
{
    match node {
        Node::Drop | Node::Return | Node::NonLocal | Node::End => 0,
        _ => 1,
    }
}

// How many values are pending after a node over so many of them.
fn grown(node: Node, depth: usize) -> usize
    requires { depth + 1 < 2 ^ 64 }
    ensures { result ≡ grown node depth }
{
    depth.saturating_sub(taken(node)) + left_by(node)
}

// Whether the body goes on behind a node.
fn is_inner(node: Node) -> bool
    ensures { result ≡ is_inner node }
{
    match node {
        Node::End | Node::Return | Node::NonLocal => false,
        _ => true,
    }
}

// Whether the number that was found is this one.
fn is_number(n: u32, found: Option<u32>) -> bool
    ensures { result ≡ is_number n found }
{
    match found {
        None => false,
        Some(k) => k == n,
    }
}

// Whether what a node of a body names is there: a local, a block's body.
fn names_test(world: &World, n: u32, node: Node) -> bool
    ensures { result ≡ names_test world.now.bodies n node }
{
    match node {
        Node::Read { up, slot } | Node::Store { up, slot } => local_test(world, n, up, slot),
        Node::BlockLit(body) => body_test(world, body.0) && is_number(n, outer_in(world, body.0)),
        _ => true,
    }
}

/// The node at a number.
pub fn node_at(nodes: &NodeList, k: usize) -> Node
    requires { k < length nodes.now }
    ensures { slice_get nodes.now k ≡ Some result }
{
    match nodes.get(k) {
        Some(node) => node,
        None => unreachable!(),
    }
}

// Whether a node ends its body, or another of so many is behind it.
fn is_followed(node: Node, k: usize, count: usize) -> bool
    requires { k < count }
    ensures { result ≡ (not (is_inner node) || nat_lt (k + 1) count) }
{
    !is_inner(node) || k + 1 < count
}

// Whether a node finds the values that it takes and what it names, and does not end its body where others are behind it.
fn node_test(world: &World, n: u32, body: &Body, k: usize, over: usize) -> bool
    requires body { body_in world.now.bodies n ≡ body.now }
    requires within { k < length body.now.nodes }
    requires deep { over ≡ depth body.now.nodes k }
    ensures { result ≡ node_test world.now.bodies n k }
{
    let node = node_at(&body.nodes, k);
    if taken(node) > over {
        return false;
    }
    if !is_followed(node, k, body.nodes.len()) {
        return false;
    }
    names_test(world, n, node)
}

// Whether a body has nodes, and each is fit.
fn nodes_test(world: &World, n: u32, body: &Body) -> bool
    requires { body_in world.now.bodies n ≡ body.now }
    ensures { result ≡ (nat_lt 0 (length body.now.nodes) && below_pass (length body.now.nodes) (node_test world.now.bodies n)) }
{
    if body.nodes.len() == 0 {
        return false;
    }
    let mut over = 0;
    for k in 0..body.nodes.len() {
        if !node_test(world, n, body, k, over) {
            return false;
        }
        over = grown(node_at(&body.nodes, k), over);
    }
    true
}

/// Whether the body around one is there, and each of its nodes is fit.
pub fn fit_test(world: &World, n: u32) -> bool
    requires given { 0 < n }
    requires within { n ≤ length world.now.bodies }
    ensures { result ≡ fit_test world.now.bodies n }
{
    let body = world.body(BodyId(n));
    outer_test(world, body.outer) && nodes_test(world, n, body)
}
