//! From a body to its unit.
ghost use Rattle.std.specs.Prelude.{◌≡◌, ◌++◌, ◌+◌, ◌-◌, ◌*◌, ◌≤◌, ◌<◌, IfOk, OnOk, Some, ℕ, [], ◌∷◌, length, map, slice_get};
ghost use Rattle.self_terms.specs.Depths.{taken, left_by, grown};
ghost use Rattle.self_terms.specs.declared.bodies.Local.{Local};
ghost use Rattle.plain_words.specs.declared.references.References.{References};
ghost use Rattle.plain_words.specs.Code.{poll, move, plus, count, frame_code, start_code, no_maker, entry_kept, context_head, context_end, argument_stores, initial_stores, cell_offset, cell_arguments, cell_initials};
ghost use Rattle.plain_words.specs.Units.{owns_context, of_block, numbered, frame_locals, frame_words, deepest, larger, is_block_literal, initial_words, entry_code, entry_size, unit_code, node_code, datum_word, unit_points, node_points, is_call, times};
ghost use Rattle.plain_words.specs.Putting.{AreInsns};
ghost use Rattle.plain_words.specs.Translating.{CanTranslate, IsShort, IsSmallDatum};

use crate::instructions::{
    cell_offset, copy, count, load, local_offset, plus, plus_one, refer, store, with_number,
};
use crate::nodes::{put, put_node, word_into};
use crate::references::{References, numbered};
use crate::units::{Point, Unit};
use self_terms::{Body, Local, Node, OutOfMemory};
use sparc_insn::{Insn, Op3};
use std::alloc::Global;

// How many pending values a node takes.
fn taken(node: Node) -> u32
    ensures { result ≡ taken node }
{
    match node {
        Node::Send(selector) => selector.args as u32 + 1,
        Node::SelfSend(selector) | Node::Resend(selector) => selector.args as u32,
        Node::Directed { sel, .. } => sel.args as u32,
        Node::Prim {
            args,
            implied,
            handler,
            ..
        } => args as u32 + (!implied) as u32 + handler as u32,
        Node::Store { .. } | Node::Drop | Node::Return | Node::NonLocal | Node::End => 1,
        _ => 0,
    }
}

// How many it leaves in their place.
fn left_by(node: Node) -> u32
    ensures { result ≡ left_by node }
{
    match node {
        Node::Drop | Node::Return | Node::NonLocal | Node::End => 0,
        _ => 1,
    }
}

// How many values are pending after a node over so many of them.
fn grown(node: Node, k: u32) -> u32
    requires { k ≤ 1000 }
    ensures { result ≡ grown node k }
{
    k.saturating_sub(taken(node)) + left_by(node)
}

fn is_block_literal(node: Node) -> bool
    ensures { result ≡ is_block_literal node }
{
    matches!(node, Node::BlockLit(_))
}

/// Whether activations of a body have contexts: it has a block literal of its own.
pub fn owns_context(body: &Body) -> bool
    ensures { result ≡ owns_context body.now }
{
    for k in 0..body.nodes.len() {
        if is_block_literal(node_at(body, k)) {
            return true;
        }
    }
    false
}

fn of_block(body: &Body) -> bool
    ensures { result ≡ of_block body.now }
{
    body.outer.is_some()
}

/// How many locals the frames of a body keep, its arguments among them.
pub fn frame_locals_of(body: &Body) -> u32
    requires { CanTranslate body.now }
    ensures value { result ≡ frame_locals body.now }
    ensures small { result ≤ 69 }
{
    if owns_context(body) {
        return 0;
    }
    let arguments = body.arguments.as_slice();
    let locals = body.locals.as_slice();
    arguments.len() as u32 + locals.len() as u32
}

fn larger(a: u32, b: u32) -> u32
    ensures { result ≡ larger a b }
{
    if a <= b { b } else { a }
}

// The most pending values before a node of a body, and behind the last one.
fn deepest(body: &Body) -> u32
    requires { CanTranslate body.now }
    ensures value { result ≡ deepest 0 body.now.nodes }
    ensures small { result ≤ 64 }
{
    let mut most = 0;
    let mut over = 0;
    for k in 0..body.nodes.len() {
        over = grown(node_at(body, k), over);
        most = larger(most, over);
    }
    most
}

/// How many words a frame of a body has.
pub fn frame_words_of(body: &Body) -> u32
    requires { CanTranslate body.now }
    ensures value { result ≡ frame_words body.now }
    ensures some { 0 < result }
    ensures small { result ≤ 162 }
{
    2 * ((29 + frame_locals_of(body) + deepest(body)) / 2)
}

// How many words an entry has beside those of arguments and locals.
fn entry_size(owns: bool) -> u32
    ensures value { result ≡ entry_size owns }
    ensures small { result ≤ 17 }
{
    if owns { 17 } else { 9 }
}

/// How many words stand in the unit of a body before its first node.
pub fn entry_words_of(body: &Body) -> u32
    requires { CanTranslate body.now }
    ensures value { (r : References) → result ≡ length (entry_code r body.now) }
    ensures small { result ≤ 214 }
{
    let arguments = body.arguments.as_slice();
    let locals = body.locals.as_slice();
    entry_size(owns_context(body)) + arguments.len() as u32 + 3 * locals.len() as u32
}

// The frame of so many words.
fn put_frame(code: &mut Vec<Insn>, words: u32) -> Result<(), OutOfMemory>
    requires some { 0 < words }
    requires few { words ≤ 1024 }
    ensures { OnOk result (code.new.items ≡ code.old.items ++ frame_code (4 * words)) }
{
    put(code, &[with_number(Op3::Save, 14, 14, -(4 * words as i32))])
}

// The method holder, and a block's receiver and the context of its maker.
fn put_start(code: &mut Vec<Insn>, block: bool) -> Result<(), OutOfMemory>
    ensures { OnOk result (code.new.items ≡ code.old.items ++ start_code block) }
{
    if block {
        return put(
            code,
            &[
                load(16, 24, 7),
                load(5, 16, 7),
                load(5, 5, 104),
                load(24, 24, 11),
            ],
        );
    }
    let branch = Insn::Branch {
        annul: true,
        cond: 1,
        disp: 2,
    };
    put(
        code,
        &[with_number(Op3::OrCc, 0, 5, 0), branch, copy(5, 24)],
    )
}

// A method has no maker.
fn put_no_maker(code: &mut Vec<Insn>, block: bool) -> Result<(), OutOfMemory>
    ensures { OnOk result (code.new.items ≡ code.old.items ++ no_maker block) }
{
    if block {
        return Ok(());
    }
    put(code, &[copy(16, 0)])
}

// So many arguments to their places in the frame.
fn put_argument_stores(code: &mut Vec<Insn>, arguments: u8) -> Result<(), OutOfMemory>
    requires { arguments ≤ 5 }
    ensures { OnOk result (code.new.items ≡ code.old.items ++ argument_stores 25 0 arguments) }
{
    for at in 0..arguments {
        put(code, &[store(25 + at, 14, local_offset(at as u32))])?;
    }
    Ok(())
}

// One initial content to its place.
fn put_initial(code: &mut Vec<Insn>, slot: u32, word: u32) -> Result<(), OutOfMemory>
    requires { slot ≤ 100 }
    ensures { OnOk result (code.new.items ≡ code.old.items ++ initial_stores slot (word ∷ [])) }
{
    put(code, &word_into(1, word))?;
    put(code, &[store(1, 14, local_offset(slot))])
}

// The local at a number.
fn local_at(locals: &[Local], k: usize) -> Local
    requires { k < length locals.now }
    ensures { slice_get locals.now k ≡ Some result }
{
    match locals.get(k) {
        Some(local) => *local,
        None => unreachable!(),
    }
}

// The initial contents of the locals, the first of which has the number `slot`, to their places in the frame.
fn put_initials(
    code: &mut Vec<Insn>,
    references: &References,
    slot: u32,
    locals: &[Local],
) -> Result<(), OutOfMemory>
    requires low { slot ≤ 5 }
    requires few { length locals.now ≤ 64 }
    requires small { (k : ℕ) (x : Local) → slice_get locals.now k ≡ Some x → IsSmallDatum x.initial }
    ensures { OnOk result (code.new.items ≡ code.old.items ++ initial_stores slot (map (λ x. datum_word references.now x.initial) locals.now)) }
{
    for at in 0..locals.len() {
        let local = local_at(locals, at);
        put_initial(code, slot + at as u32, references.datum(local.initial))?;
    }
    Ok(())
}

// What an activation without a context keeps, but for the holder.
fn put_in_frame(
    code: &mut Vec<Insn>,
    references: &References,
    body: &Body,
) -> Result<(), OutOfMemory>
    requires { CanTranslate body.now }
    ensures { OnOk result (code.new.items ≡ (code.old.items ++ (move 17 0 ∷ argument_stores 25 0 (length body.now.arguments))) ++ (initial_stores (length body.now.arguments) (initial_words references.now body.now) ++ (plus 4 1 ∷ count ∷ []))) }
{
    let arguments = body.arguments.as_slice().len();
    put(code, &[copy(17, 0)])?;
    put_argument_stores(code, arguments as u8)?;
    put_initials(code, references, arguments as u32, body.locals.as_slice())?;
    put(code, &[plus_one(4), count()])
}

// So many arguments to their places in a context at the heap's top.
fn put_cell_arguments(code: &mut Vec<Insn>, arguments: u8) -> Result<(), OutOfMemory>
    requires { arguments ≤ 5 }
    ensures { OnOk result (code.new.items ≡ code.old.items ++ cell_arguments 25 0 arguments) }
{
    for at in 0..arguments {
        put(code, &[store(25 + at, 6, cell_offset(at as u32))])?;
    }
    Ok(())
}

// One initial content to its place there.
fn put_cell_initial(code: &mut Vec<Insn>, slot: u32, word: u32) -> Result<(), OutOfMemory>
    requires { slot ≤ 100 }
    ensures { OnOk result (code.new.items ≡ code.old.items ++ cell_initials slot (word ∷ [])) }
{
    put(code, &word_into(1, word))?;
    put(code, &[store(1, 6, cell_offset(slot))])
}

// The initial contents of the locals, the first of which has the number `slot`, to their places there.
fn put_cell_initials(
    code: &mut Vec<Insn>,
    references: &References,
    slot: u32,
    locals: &[Local],
) -> Result<(), OutOfMemory>
    requires low { slot ≤ 5 }
    requires few { length locals.now ≤ 64 }
    requires small { (k : ℕ) (x : Local) → slice_get locals.now k ≡ Some x → IsSmallDatum x.initial }
    ensures { OnOk result (code.new.items ≡ code.old.items ++ cell_initials slot (map (λ x. datum_word references.now x.initial) locals.now)) }
{
    for at in 0..locals.len() {
        let local = local_at(locals, at);
        put_cell_initial(code, slot + at as u32, references.datum(local.initial))?;
    }
    Ok(())
}

// The first words of a context, whose map has this word.
fn put_context_head(code: &mut Vec<Insn>, map: u32) -> Result<(), OutOfMemory>
    ensures { OnOk result (code.new.items ≡ code.old.items ++ context_head map) }
{
    put(code, &word_into(1, map))?;
    put(
        code,
        &[
            store(1, 6, 0),
            store(16, 6, 4),
            store(14, 6, 8),
            store(24, 6, 12),
        ],
    )
}

// What an activation with a context keeps in it.
fn put_in_context(
    code: &mut Vec<Insn>,
    references: &References,
    body: &Body,
) -> Result<(), OutOfMemory>
    requires { CanTranslate body.now }
    ensures { OnOk result (code.new.items ≡ (code.old.items ++ (context_head (numbered references.now.contexts) ++ cell_arguments 25 0 (length body.now.arguments))) ++ (cell_initials (length body.now.arguments) (initial_words references.now body.now) ++ context_end (4 + length body.now.arguments + length (initial_words references.now body.now)))) }
{
    let arguments = body.arguments.as_slice().len();
    let locals = body.locals.as_slice();
    put_context_head(code, numbered(references.contexts))?;
    put_cell_arguments(code, arguments as u8)?;
    put_cell_initials(code, references, arguments as u32, locals)?;
    let words = 4 + arguments as u32 + locals.len() as u32;
    put(
        code,
        &[
            refer(17),
            plus(6, 4 * words),
            plus(3, words),
            plus_one(4),
            count(),
        ],
    )
}

// What is kept of an entry.
fn put_kept(
    code: &mut Vec<Insn>,
    references: &References,
    body: &Body,
    owns: bool,
    block: bool,
) -> Result<(), OutOfMemory>
    requires { CanTranslate body.now }
    ensures { OnOk result (code.new.items ≡ code.old.items ++ entry_kept owns block (numbered references.now.contexts) (length body.now.arguments) (initial_words references.now body.now)) }
{
    put(code, &[store(5, 14, 104)])?;
    put_no_maker(code, block)?;
    if owns {
        return put_in_context(code, references, body);
    }
    put_in_frame(code, references, body)
}

// The words before the first node: the frame, and what is kept of the entry.
fn put_entry(code: &mut Vec<Insn>, references: &References, body: &Body) -> Result<(), OutOfMemory>
    requires { CanTranslate body.now }
    ensures { OnOk result (code.new.items ≡ code.old.items ++ entry_code references.now body.now) }
{
    let block = of_block(body);
    put_frame(code, frame_words_of(body))?;
    put_start(code, block)?;
    put_kept(code, references, body, owns_context(body), block)?;
    Ok(())
}

// A point for each of so many words.
fn put_points(points: &mut Vec<Point>, words: usize, point: Point) -> Result<(), OutOfMemory>
    ensures { OnOk result (points.new.items ≡ points.old.items ++ times words point) }
{
    for _word in 0..words {
        points.extend_from_slice(&[point])?;
    }
    Ok(())
}

// Whether a node waits for an answer.
fn is_call(node: Node) -> bool
    ensures { result ≡ is_call node }
{
    matches!(
        node,
        Node::Send(_)
            | Node::SelfSend(_)
            | Node::Resend(_)
            | Node::Directed { .. }
            | Node::Prim { .. }
    )
}

// The points of so many words of a node over k pending values.
fn put_node_points(
    points: &mut Vec<Point>,
    body: u32,
    n: u32,
    node: Node,
    k: u32,
    words: usize,
) -> Result<(), OutOfMemory>
    ensures { OnOk result (points.new.items ≡ points.old.items ++ node_points body n node k words) }
{
    let before = Point {
        body,
        node: n,
        pending: k,
    };
    if is_call(node) {
        put_points(points, words.saturating_sub(1), before)?;
        let behind = Point {
            body,
            node: n,
            pending: k.saturating_sub(taken(node)),
        };
        return points.extend_from_slice(&[behind]);
    }
    put_points(points, words, before)
}

// Node n of a body, over k pending values, its first word standing `at` words behind that of the first node: its words and their points.
// Tells how many words it has.
fn add_node(
    unit: &mut Unit,
    references: &References,
    number: u32,
    owns: bool,
    locals: u32,
    at: u32,
    n: u32,
    node: Node,
    k: u32,
) -> Result<u32, OutOfMemory>
    requires room { locals + k + 6 ≤ 512 }
    requires near { at < 90000 }
    requires short { IsShort 64 node }
    ensures words { IfOk result (λ w. w ≡ length (poll ++ node_code references.now owns locals at node k)) }
    ensures few { IfOk result (λ w. w ≤ 74) }
    ensures code { OnOk result (unit.new.code.items ≡ unit.old.code.items ++ (poll ++ node_code references.now owns locals at node k)) }
    ensures points { OnOk result (unit.new.points.items ≡ unit.old.points.items ++ node_points number n node k (length (poll ++ node_code references.now owns locals at node k))) }
{
    let before = unit.code.as_slice().len();
    put_node(&mut unit.code, references, owns, locals, at, node, k)?;
    let words = unit.code.as_slice().len().saturating_sub(before);
    put_node_points(&mut unit.points, number, n, node, k, words)?;
    Ok(words as u32)
}

// The node at a number.
fn node_at(body: &Body, k: usize) -> Node
    requires { k < length body.now.nodes }
    ensures { slice_get body.now.nodes k ≡ Some result }
{
    match body.nodes.get(k) {
        Some(node) => node,
        None => unreachable!(),
    }
}

// The unit of a body, with the number of the body in its points.
fn translate(
    alloc: Global,
    references: &References,
    number: u32,
    body: &Body,
) -> Result<Unit, OutOfMemory>
    requires { CanTranslate body.now }
    ensures code { IfOk result (λ u. u.code.items ≡ unit_code references.now body.now) }
    ensures points { IfOk result (λ u. u.points.items ≡ unit_points references.now number body.now) }
{
    let mut unit = Unit {
        code: Vec::new(alloc),
        points: Vec::new(alloc),
    };
    put_entry(&mut unit.code, references, body)?;
    let words = unit.code.as_slice().len();
    let entry = Point {
        body: number,
        node: 0,
        pending: 0,
    };
    put_points(&mut unit.points, words, entry)?;
    let owns = owns_context(body);
    let locals = frame_locals_of(body);
    let mut at = 0;
    let mut over = 0;
    for k in 0..body.nodes.len() {
        let node = node_at(body, k);
        at += add_node(
            &mut unit, references, number, owns, locals, at, k as u32, node, over,
        )?;
        over = grown(node, over);
    }
    Ok(unit)
}

/// The unit of a body, and for each of its words what it says of the frame, with the number of the body. Every word is an instruction of the
/// table.
pub fn unit_of(
    alloc: Global,
    references: &References,
    number: u32,
    body: &Body,
) -> Result<Unit, OutOfMemory>
    requires { CanTranslate body.now }
    ensures code { IfOk result (λ u. u.code.items ≡ unit_code references.now body.now) }
    ensures points { IfOk result (λ u. u.points.items ≡ unit_points references.now number body.now) }
    ensures insns { IfOk result (λ u. AreInsns u.code.items) }
{
    references.are_words();
    let unit = translate(alloc, references, number, body)?;
    Ok(unit)
}
