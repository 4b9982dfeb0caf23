//! A run, by turns: the words go on to a trap, and its service leads on or ends the run.
ghost use Rattle.std.specs.Prelude.{◌≡◌, ◌<◌, ◌≤◌, ◌+◌, ◌*◌, ◌-◌, ◌^◌, ℕ, List, ◌≢◌, true, false, slice_get, get_or, length, Some, None, IfOk, OnOk, OnErr, IsErrOf};
ghost use Rattle.std.specs.Option.{option_copied, option_and_then};
ghost use Rattle.io_ports.specs.Causes.{Rose, Takes, TakesFront};
ghost use Rattle.self_terms.specs.declared.nodes.Node.TheVariants.{Prim};
ghost use Rattle.self_terms.specs.declared.nodes.Selector.{Selector};
ghost use Rattle.source_model.specs.Names.{text_named};
ghost use Rattle.source_model.specs.Soundness.{body_in};
ghost use Rattle.source_model.specs.State.{State};
ghost use Rattle.source_model.specs.Step.{place_at};
ghost use Rattle.slot_lookup.specs.declared.sends.Found.TheVariants.{One};
ghost use Rattle.object_maps.specs.declared.maps.SlotKind.TheVariants.{Assign, Method};
ghost use Rattle.prim_table.specs.Operands.{Operand};
ghost use Rattle.plain_words.specs.Translating.{CanTranslate};
ghost use Rattle.plain_sends.specs.Found.{data_word};
ghost use Rattle.plain_sends.specs.Sends.{selector_of};
ghost use Rattle.plain_answers.specs.Found.{error_of};
ghost use Rattle.plain_answers.specs.Whole.{whole};
ghost use Rattle.plain_lookups.specs.Telling.{found_by};
ghost use Rattle.plain_prims.specs.Rows.{primitive_of};
ghost use Rattle.plain_prims.specs.Services.{heap_of};
ghost use Rattle.plain_served.specs.Serving.{MayTestMark, is_costly, is_gone, refusal};
ghost use Rattle.plain_unwinds.specs.Services.{fails_unmarked};
ghost use Rattle.plain_turns.specs.Asking.{behind_poll, cost_left, count, found_here, node_here, place_here};
ghost use Rattle.plain_turns.specs.Primitives.{Costs, KnowsWords};
ghost use Rattle.plain_turns.specs.Resting.{IsGoing};
ghost use Rattle.plain_turns.specs.Turns.{IsAsked};
ghost use Rattle.plain_host.specs.Hosted.{host};
ghost use Rattle.plain_core.specs.Language.{KnowsCore};
ghost use Rattle.plain_core.specs.Turning.{Breaks, Came, CanGoOn, IsKnown, Quiet, Served, StandsAt, TurnsOn, Went, Writes, is_printing};
ghost use Rattle.plain_core.specs.declared.running.RunErr.TheVariants.{Write};
ghost use Rattle.plain_core.specs.declared.turning.Turn.TheVariants.{Ended};

use crate::handing::give_up;
use crate::language::Language;
use crate::running::RunErr;
use io_ports::Sink;
use object_maps::SlotKind;
use plain_host::Hosting;
use plain_prints::{PrintErr, print};
use plain_runs::Status;
use plain_words::owns_context;
use prim_table::{CoreWords, PrimAnswer};
use self_terms::{Body, BodyId, ErrorName, Name, Node, OutOfMemory, Place, PlaceList};
use slot_lookup::{Found, Walk, directed, lookup, resend};
use source_model::Primitive;
use sparc_machine::Event;
use std::alloc::Global;

// More instructions than a run of the largest goal takes.
const MOST: u64 = 1 << 40;

/// The most words of plain cost.
pub(crate) const MOST_COST: u64 = 4_194_304;

/// What a service comes to: the words go on, or the run has ended.
pub(crate) enum Turn {
    On,
    Ended,
}

/// The words have come to a trap, by so many instructions.
#[derive(Drop)]
pub(crate) struct Arrival {
    pub trap: u8,
    pub instructions: u64,
}

/// A turn was taken: the trap at which the run then stands, or none where it has ended; and the instructions to there.
#[derive(Drop)]
pub(crate) struct Passed {
    pub next: Option<u8>,
    pub instructions: u64,
}

// The words go on to a trap.
pub(crate) fn go(hosting: &mut Hosting, _language: &Language, _target: u64) -> Arrival
    requires { CanGoOn _language.now (host hosting.old) _target }
    ensures came { (from : State) (out : List ℕ) → (g : IsGoing (host hosting.old) from _target out) → Came (host hosting.old) (host hosting.new) result.trap from _target out g }
    ensures went { Went (host hosting.old) (host hosting.new) result.instructions }
    ensures few { result.instructions ≤ 2 ^ 40 }
{
    let told = hosting.run(MOST);
    match told.event {
        Event::Trap(trap) => Arrival {
            trap,
            instructions: told.taken,
        },
        Event::Went => unreachable!(),
    }
}

// What is left of the goal.
pub(crate) fn left(hosting: &Hosting, _language: &Language, _trap: u8, target: u64) -> u32
    requires at { StandsAt _language.now (host hosting.now) _trap target }
    requires small { target ≤ 2 ^ 61 }
    ensures { result ≡ target - count (host hosting.now) }
{
    target.saturating_sub(hosting.steps()) as u32
}

// What is left of the plain cost.
pub(crate) fn cost_left(hosting: &Hosting, _language: &Language, _trap: u8, _target: u64) -> u32
    requires at { StandsAt _language.now (host hosting.now) _trap _target }
    ensures { result ≡ cost_left (host hosting.now) }
{
    MOST_COST.saturating_sub(hosting.cost()) as u32
}

// The place at a number.
fn place_of(places: &PlaceList, node: u32) -> Place
    ensures { result ≡ get_or places.now node (record { edit = 0; line = 0; column = 0 }) }
{
    match places.get(node as usize) {
        Some(place) => place,
        None => Place {
            edit: 0,
            line: 0,
            column: 0,
        },
    }
}

// The body of a number, where 0 counts as 1; none past the last.
fn body_at(hosting: &Hosting, body: u32) -> Option<&Body>
    ensures { option_copied result ≡ slice_get (host hosting.now).bodies (body - 1) }
{
    let number = if body == 0 { 1 } else { body };
    if number > hosting.bodies() {
        return None;
    }
    Some(hosting.body(number))
}

// The place of a node of a body.
fn place_at(hosting: &Hosting, body: u32, node: u32) -> Place
    ensures { result ≡ place_at (body_in (host hosting.now).bodies body) node }
{
    match body_at(hosting, body) {
        Some(body) => place_of(&body.places, node),
        None => Place {
            edit: 0,
            line: 0,
            column: 0,
        },
    }
}

// The place of the node in whose words the machine stands.
pub(crate) fn place_here(hosting: &Hosting) -> Place
    requires { (host hosting.now).machine.pc + 4 < 2 ^ 32 }
    ensures { result ≡ place_here (host hosting.now) }
{
    let point = hosting.point_at(hosting.pc() + 4);
    place_at(hosting, point.body, point.node)
}

// A node of a body.
fn node_of(hosting: &Hosting, body: u32, node: u32) -> Option<Node>
    ensures { result ≡ slice_get (body_in (host hosting.now).bodies body).nodes node }
{
    match body_at(hosting, body) {
        Some(body) => body.nodes.get(node as usize),
        None => None,
    }
}

// The node in whose words the machine stands.
fn node_here(hosting: &Hosting) -> Option<Node>
    requires { (host hosting.now).machine.pc + 4 < 2 ^ 32 }
    ensures { result ≡ node_here (host hosting.now) }
{
    let point = hosting.point_at(hosting.pc() + 4);
    node_of(hosting, point.body, point.node)
}

// What a node's message meets.
fn find_for(hosting: &Hosting, walk: &mut Walk, node: Node, _target: u64) -> Found
    requires asked { IsAsked (host hosting.now) _target walk.old }
    requires here { node_here (host hosting.now) ≡ Some node }
    ensures found { result ≡ found_by walk.old (host hosting.now) node }
    ensures room { walk.new ≡ walk.old }
{
    match node {
        Node::Send(selector) => lookup(
            hosting.maps(),
            hosting.memory(),
            hosting.register(8),
            selector,
            walk,
        ),
        Node::SelfSend(selector) => lookup(
            hosting.maps(),
            hosting.memory(),
            hosting.register(8),
            selector,
            walk,
        ),
        Node::Resend(selector) => {
            let holder = hosting.word(hosting.register(14) + 104);
            resend(hosting.maps(), hosting.memory(), holder, selector, walk)
        }
        Node::Directed { parent, sel } => {
            let holder = hosting.word(hosting.register(14) + 104);
            directed(hosting.maps(), hosting.memory(), holder, parent, sel, walk)
        }
        _ => Found::NotUnderstood,
    }
}

// What the message of the node meets at whose trap the machine stands.
fn find(hosting: &Hosting, walk: &mut Walk, target: u64) -> Found
    requires asked { IsAsked (host hosting.now) target walk.old }
    requires low { (host hosting.now).machine.pc + 4 < 2 ^ 32 }
    ensures found { result ≡ found_here walk.old (host hosting.now) }
    ensures room { walk.new ≡ walk.old }
{
    match node_here(hosting) {
        Some(node) => find_for(hosting, walk, node, target),
        None => Found::NotUnderstood,
    }
}

// How many arguments the message of a node takes.
fn arguments_of(node: Node) -> u32
    ensures { (selector : Selector) → selector_of node ≡ Some selector → result ≡ selector.args }
{
    match node {
        Node::Send(selector) => selector.args as u32,
        Node::SelfSend(selector) => selector.args as u32,
        Node::Resend(selector) => selector.args as u32,
        Node::Directed { sel, .. } => sel.args as u32,
        _ => 0,
    }
}

// How many bytes before the trap of its message the node's poll stands.
fn back_of(hosting: &Hosting, _walk: &Walk, _target: u64) -> u32
    requires asked { IsAsked (host hosting.now) _target _walk.now }
    requires low { (host hosting.now).machine.pc + 4 < 2 ^ 32 }
    ensures { (selector : Selector) → option_and_then selector_of (node_here (host hosting.now)) ≡ Some selector → result ≡ behind_poll selector.args }
{
    match node_here(hosting) {
        Some(node) => 28 + 4 * arguments_of(node),
        None => 28,
    }
}

// The activity ends by an error of the node at whose trap the machine stands, and with it the run.
pub(crate) fn fail(
    hosting: &mut Hosting,
    language: &Language,
    trap: u8,
    target: u64,
    error: ErrorName,
) -> Turn
    requires at { StandsAt language.now (host hosting.old) trap target }
    requires small { target ≤ 2 ^ 61 }
    requires other { trap ≢ 9 }
    ensures ended { result ≡ Ended }
    ensures failed { host hosting.new ≡ fails_unmarked 0 (cost_left (host hosting.old)) error (place_here (host hosting.old)) (host hosting.old) }
{
    let cost = cost_left(hosting, language, trap, target);
    let place = place_here(hosting);
    hosting.fail_unmarked(0, cost, error, place);
    Turn::Ended
}

// Data answers the message.
fn answer(hosting: &mut Hosting, _walk: &Walk, language: &Language, target: u64, word: u32) -> Turn
    requires at { StandsAt language.now (host hosting.old) 1 target }
    requires small { target ≤ 2 ^ 61 }
    requires room { (host hosting.old).next ≤ _walk.now }
    requires found { data_word (whole (host hosting.old)) (found_here _walk.now (host hosting.old)) ≡ Some word }
    ensures { Quiet language.now 1 (host hosting.old) (host hosting.new) target result }
{
    let goal = left(hosting, language, 1, target) - 1;
    let cost = cost_left(hosting, language, 1, target);
    hosting.answer_data(goal, cost, word);
    Turn::On
}

// An assignment slot does.
fn assign(
    hosting: &mut Hosting,
    _walk: &Walk,
    language: &Language,
    target: u64,
    holder: u32,
    place: u32,
) -> Turn
    requires at { StandsAt language.now (host hosting.old) 1 target }
    requires small { target ≤ 2 ^ 61 }
    requires room { (host hosting.old).next ≤ _walk.now }
    requires found { found_here _walk.now (host hosting.old) ≡ One holder (Assign place) }
    ensures { Quiet language.now 1 (host hosting.old) (host hosting.new) target result }
{
    let goal = left(hosting, language, 1, target) - 1;
    let cost = cost_left(hosting, language, 1, target);
    hosting.assign(goal, cost, holder + 7 + 4 * place);
    Turn::On
}

// The message meets no slot, or two.
fn miss(
    hosting: &mut Hosting,
    _walk: &Walk,
    language: &Language,
    target: u64,
    error: ErrorName,
) -> Turn
    requires at { StandsAt language.now (host hosting.old) 1 target }
    requires small { target ≤ 2 ^ 61 }
    requires room { (host hosting.old).next ≤ _walk.now }
    requires found { error_of (found_here _walk.now (host hosting.old)) ≡ Some error }
    ensures { Quiet language.now 1 (host hosting.old) (host hosting.new) target result }
{
    fail(hosting, language, 1, target, error)
}

// Whether a body is a block's whose maker doesn't run in the current activity, where the block is in %o0.
fn is_gone(hosting: &Hosting, b: u32) -> bool
    requires given { 0 < b }
    requires within { b ≤ length (host hosting.now).bodies }
    requires mark { MayTestMark (host hosting.now) b }
    ensures { result ≡ is_gone (host hosting.now) b }
{
    if hosting.body(b).outer.is_none() {
        return false;
    }
    !hosting.is_live()
}

// How many words the context of an activation of a body takes.
fn context_words(body: &Body) -> u64
    requires { CanTranslate body.now }
    ensures count { result ≡ 4 + (length body.now.arguments + length body.now.locals) }
    ensures small { result ≤ 1000000 }
{
    4 + body.arguments.as_slice().len() as u64 + body.locals.as_slice().len() as u64
}

// Whether its activation is to have a context that can't be paid.
fn is_costly(hosting: &Hosting, b: u32) -> bool
    requires given { 0 < b }
    requires within { b ≤ length (host hosting.now).bodies }
    requires translates { CanTranslate (body_in (host hosting.now).bodies b) }
    requires sums { (host hosting.now).cost + (host hosting.now).machine.regs 3 ≤ 4194304 }
    ensures { result ≡ is_costly (host hosting.now) b }
{
    let body = hosting.body(b);
    if !owns_context(body) {
        return false;
    }
    MOST_COST < hosting.cost() + context_words(body)
}

// Why the method of a body isn't called for the message, where it isn't.
pub(crate) fn refusal(hosting: &Hosting, b: u32) -> Option<ErrorName>
    requires given { 0 < b }
    requires within { b ≤ length (host hosting.now).bodies }
    requires translates { CanTranslate (body_in (host hosting.now).bodies b) }
    requires sums { (host hosting.now).cost + (host hosting.now).machine.regs 3 ≤ 4194304 }
    requires mark { MayTestMark (host hosting.now) b }
    ensures { result ≡ refusal (host hosting.now) b }
{
    if is_gone(hosting, b) {
        return Some(ErrorName::NonLifoBlock);
    }
    if hosting.register(4) >= 4096 {
        return Some(ErrorName::StackOverflow);
    }
    if is_costly(hosting, b) {
        return Some(ErrorName::StoreFull);
    }
    None
}

// The message meets a method that isn't called.
fn refuse(
    hosting: &mut Hosting,
    _walk: &Walk,
    language: &Language,
    target: u64,
    _holder: u32,
    _body: BodyId,
    _at: u32,
    error: ErrorName,
) -> Turn
    requires at { StandsAt language.now (host hosting.old) 1 target }
    requires small { target ≤ 2 ^ 61 }
    requires room { (host hosting.old).next ≤ _walk.now }
    requires found { found_here _walk.now (host hosting.old) ≡ One _holder (Method _body) }
    requires entry { slice_get (host hosting.old).entries (_body.0 - 1) ≡ Some _at }
    requires there { _at ≢ 0 }
    requires refused { refusal (host hosting.old) _body.0 ≡ Some error }
    ensures { Quiet language.now 1 (host hosting.old) (host hosting.new) target result }
{
    fail(hosting, language, 1, target, error)
}

// A method with a unit is called.
fn call(
    hosting: &mut Hosting,
    _walk: &Walk,
    language: &Language,
    target: u64,
    holder: u32,
    _body: BodyId,
    at: u32,
) -> Turn
    requires at { StandsAt language.now (host hosting.old) 1 target }
    requires small { target ≤ 2 ^ 61 }
    requires room { (host hosting.old).next ≤ _walk.now }
    requires found { found_here _walk.now (host hosting.old) ≡ One holder (Method _body) }
    requires entry { slice_get (host hosting.old).entries (_body.0 - 1) ≡ Some at }
    requires there { at ≢ 0 }
    requires let_through { refusal (host hosting.old) _body.0 ≡ None }
    ensures { Quiet language.now 1 (host hosting.old) (host hosting.new) target result }
{
    let goal = left(hosting, language, 1, target);
    let cost = cost_left(hosting, language, 1, target);
    hosting.call(goal, cost, at, holder);
    Turn::On
}

// A method with a unit is called, or refused.
fn test(
    hosting: &mut Hosting,
    walk: &Walk,
    language: &Language,
    target: u64,
    holder: u32,
    body: BodyId,
    at: u32,
) -> Turn
    requires at { StandsAt language.now (host hosting.old) 1 target }
    requires small { target ≤ 2 ^ 61 }
    requires room { (host hosting.old).next ≤ walk.now }
    requires found { found_here walk.now (host hosting.old) ≡ One holder (Method body) }
    requires entry { slice_get (host hosting.old).entries (body.0 - 1) ≡ Some at }
    requires there { at ≢ 0 }
    ensures { Quiet language.now 1 (host hosting.old) (host hosting.new) target result }
{
    match refusal(hosting, body.0) {
        Some(error) => refuse(hosting, walk, language, target, holder, body, at, error),
        None => call(hosting, walk, language, target, holder, body, at),
    }
}

// The unit of a method is put, and the message asked again.
fn put(
    hosting: &mut Hosting,
    alloc: Global,
    walk: &Walk,
    language: &Language,
    target: u64,
    _holder: u32,
    body: BodyId,
) -> Result<Turn, OutOfMemory>
    requires at { StandsAt language.now (host hosting.old) 1 target }
    requires small { target ≤ 2 ^ 61 }
    requires room { (host hosting.old).next ≤ walk.now }
    requires found { found_here walk.now (host hosting.old) ≡ One _holder (Method body) }
    requires none { slice_get (host hosting.old).entries (body.0 - 1) ≡ Some 0 }
    ensures { IfOk result (λ t. Quiet language.now 1 (host hosting.old) (host hosting.new) target t) }
{
    let goal = left(hosting, language, 1, target);
    let cost = cost_left(hosting, language, 1, target);
    let back = back_of(hosting, walk, target);
    hosting.put_unit(alloc, body.0)?;
    hosting.is_whole();
    hosting.go_back(goal, cost, back);
    Ok(Turn::On)
}

// The message meets a method.
fn enter(
    hosting: &mut Hosting,
    alloc: Global,
    walk: &Walk,
    language: &Language,
    target: u64,
    holder: u32,
    body: BodyId,
) -> Result<Turn, OutOfMemory>
    requires at { StandsAt language.now (host hosting.old) 1 target }
    requires small { target ≤ 2 ^ 61 }
    requires room { (host hosting.old).next ≤ walk.now }
    requires found { found_here walk.now (host hosting.old) ≡ One holder (Method body) }
    ensures { IfOk result (λ t. Quiet language.now 1 (host hosting.old) (host hosting.new) target t) }
{
    match hosting.entry_of(body.0) {
        None => unreachable!(),
        Some(0) => put(hosting, alloc, walk, language, target, holder, body),
        Some(at) => Ok(test(hosting, walk, language, target, holder, body, at)),
    }
}

// The message meets a slot.
fn meet(
    hosting: &mut Hosting,
    alloc: Global,
    walk: &Walk,
    language: &Language,
    target: u64,
    holder: u32,
    kind: SlotKind,
) -> Result<Turn, OutOfMemory>
    requires at { StandsAt language.now (host hosting.old) 1 target }
    requires small { target ≤ 2 ^ 61 }
    requires room { (host hosting.old).next ≤ walk.now }
    requires found { found_here walk.now (host hosting.old) ≡ One holder kind }
    ensures { IfOk result (λ t. Quiet language.now 1 (host hosting.old) (host hosting.new) target t) }
{
    match kind {
        SlotKind::Constant(word) => Ok(answer(hosting, walk, language, target, word)),
        SlotKind::Parent(word) => Ok(answer(hosting, walk, language, target, word)),
        SlotKind::Field(place) => {
            let word = hosting.word(holder + 7 + 4 * place);
            Ok(answer(hosting, walk, language, target, word))
        }
        SlotKind::Assign(place) => Ok(assign(hosting, walk, language, target, holder, place)),
        SlotKind::Method(body) => enter(hosting, alloc, walk, language, target, holder, body),
    }
}

// A message's service.
fn send(
    hosting: &mut Hosting,
    alloc: Global,
    walk: &mut Walk,
    language: &Language,
    target: u64,
) -> Result<Turn, OutOfMemory>
    requires at { StandsAt language.now (host hosting.old) 1 target }
    requires small { target ≤ 2 ^ 61 }
    requires room { (host hosting.old).next ≤ walk.old }
    ensures served { IfOk result (λ t. Quiet language.now 1 (host hosting.old) (host hosting.new) target t) }
    ensures same { walk.new ≡ walk.old }
{
    match find(hosting, walk, target) {
        Found::NotUnderstood => Ok(miss(hosting, walk, language, target, ErrorName::NotUnderstood)),
        Found::Ambiguous { .. } => {
            Ok(miss(hosting, walk, language, target, ErrorName::Ambiguous))
        }
        Found::One { holder, kind } => meet(hosting, alloc, walk, language, target, holder, kind),
    }
}

// Nothing is left of the goal: the activity waits at its node's poll.
fn wait(hosting: &mut Hosting, language: &Language, target: u64) -> Turn
    requires at { StandsAt language.now (host hosting.old) 2 target }
    requires small { target ≤ 2 ^ 61 }
    ensures { Quiet language.now 2 (host hosting.old) (host hosting.new) target result }
{
    let cost = cost_left(hosting, language, 2, target);
    hosting.wait(0, cost);
    Turn::Ended
}

// The oldest activation has answered.
fn end(hosting: &mut Hosting, language: &Language, target: u64) -> Turn
    requires at { StandsAt language.now (host hosting.old) 9 target }
    requires small { target ≤ 2 ^ 61 }
    ensures { Quiet language.now 9 (host hosting.old) (host hosting.new) target result }
{
    let cost = cost_left(hosting, language, 9, target);
    hosting.end(0, cost);
    Turn::Ended
}

// A block can't be paid.
fn fill(hosting: &mut Hosting, language: &Language, target: u64) -> Turn
    requires at { StandsAt language.now (host hosting.old) 8 target }
    requires small { target ≤ 2 ^ 61 }
    ensures { Quiet language.now 8 (host hosting.old) (host hosting.new) target result }
{
    fail(hosting, language, 8, target, ErrorName::StoreFull)
}

// A return from a home method.
fn leave(hosting: &mut Hosting, language: &Language, target: u64) -> Turn
    requires at { StandsAt language.now (host hosting.old) 4 target }
    requires small { target ≤ 2 ^ 61 }
    ensures { Quiet language.now 4 (host hosting.old) (host hosting.new) target result }
{
    let goal = left(hosting, language, 4, target) - 1;
    let cost = cost_left(hosting, language, 4, target);
    let current = hosting.current();
    hosting.unwind(goal, cost);
    match hosting.status(current) {
        Some(Status::Waiting(_, _, _)) => Turn::On,
        Some(Status::Answered(_)) => Turn::Ended,
        Some(Status::Failed(_, _)) => Turn::Ended,
        None => Turn::Ended,
    }
}

// One for which more would be taken than is left of the plain cost fills the store.
fn fail_costly(
    hosting: &mut Hosting,
    language: &Language,
    target: u64,
    _prim: Primitive,
    _name: Name,
    _args: u8,
    _implied: bool,
    _handler: bool,
    _words: u32,
) -> Turn
    requires at { StandsAt language.now (host hosting.old) 3 target }
    requires small { target ≤ 2 ^ 61 }
    requires known { IsKnown language.now (host hosting.old) _prim _name _args _implied _handler }
    requires costs { Costs (host hosting.old) _prim _words }
    requires full { 4194304 < (host hosting.old).cost + (host hosting.old).machine.regs 3 + _words }
    ensures { Quiet language.now 3 (host hosting.old) (host hosting.new) target result }
{
    fail(hosting, language, 3, target, ErrorName::StoreFull)
}

// The words of the objects that the language knows.
fn core_words(hosting: &Hosting, language: &Language) -> CoreWords
    requires { KnowsCore (host hosting.now) language.now }
    ensures { KnowsWords (host hosting.now) language.now.core result }
{
    let core = language.core();
    let (Some(yes), Some(no)) = (hosting.reference(core.yes), hosting.reference(core.no)) else {
        unreachable!()
    };
    CoreWords {
        nil: hosting.nil(),
        yes,
        no,
    }
}

// Whether a primitive prints.
fn is_printing(prim: Primitive) -> bool
    ensures { result ≡ is_printing prim }
{
    match prim {
        Primitive::StringPrint => true,
        Primitive::IntPrint => true,
        _ => false,
    }
}

// Writes what a primitive prints.
fn write_line<K: Sink>(
    hosting: &Hosting,
    alloc: Global,
    prim: Primitive,
    out: &mut K,
) -> Result<(), RunErr>
    requires { is_printing prim ≡ true → Operand (host hosting.now).maps (host hosting.now).machine.memory (heap_of (host hosting.now)) ((host hosting.now).machine.regs 8) }
    ensures said { OnOk result ((line : List ℕ) × Writes (is_printing prim) (host hosting.now) prim line × Takes (K.taken out.old) (K.taken out.new) line) }
    ensures front { OnErr result ((line : List ℕ) × Writes (is_printing prim) (host hosting.now) prim line × TakesFront (K.taken out.old) (K.taken out.new) line) }
    ensures later { K.faults out.old ≤ K.faults out.new }
    ensures cause { IsErrOf result Write → Rose (K.faults out.old) (K.faults out.new) }
{
    if !is_printing(prim) {
        return Ok(());
    }
    match print(hosting, alloc, prim, out) {
        Ok(()) => Ok(()),
        Err(PrintErr::OutOfMemory) => Err(RunErr::OutOfMemory),
        Err(PrintErr::Write) => Err(RunErr::Write),
    }
}

// A walk has room for so many objects; where it had none, for twice as many.
fn make_room(walk: &mut Walk, alloc: Global, objects: u32) -> Result<(), OutOfMemory>
    requires { objects ≤ 1000000000 }
    ensures roomy { OnOk result (objects ≤ walk.new) }
    ensures grown { walk.old ≤ walk.new }
{
    if objects as usize > walk.room() {
        *walk = Walk::open(alloc, 2 * objects)?;
    }
    Ok(())
}

// Applies a primitive whose cost fits: it answers, and the words go on behind the trap; or it fails, and its handler gets a message where it has one.
fn apply<K: Sink>(
    hosting: &mut Hosting,
    alloc: Global,
    walk: &mut Walk,
    language: &Language,
    out: &mut K,
    target: u64,
    prim: Primitive,
    name: Name,
    args: u8,
    implied: bool,
    handler: bool,
    words: u32,
) -> Result<Turn, RunErr>
    requires at { StandsAt language.now (host hosting.old) 3 target }
    requires small { target ≤ 2 ^ 61 }
    requires core { KnowsCore (host hosting.old) language.now }
    requires room { (host hosting.old).next ≤ walk.old }
    requires known { IsKnown language.now (host hosting.old) prim name args implied handler }
    requires count { args ≤ 5 }
    requires costs { Costs (host hosting.old) prim words }
    requires fits { (host hosting.old).cost + (host hosting.old).machine.regs 3 + words ≤ 4194304 }
    ensures served { IfOk result (λ t. Served language.now 3 (host hosting.old) (host hosting.new) target (K.taken out.old) (K.taken out.new) t) }
    ensures roomy { OnOk result ((host hosting.new).next ≤ walk.new) }
    ensures grown { walk.old ≤ walk.new }
    ensures broken { OnErr result (Breaks language.now 3 (host hosting.old) target (K.taken out.old) (K.taken out.new)) }
    ensures later { K.faults out.old ≤ K.faults out.new }
    ensures cause { IsErrOf result Write → Rose (K.faults out.old) (K.faults out.new) }
{
    let core = core_words(hosting, language);
    let goal = left(hosting, language, 3, target) - 1;
    let cost = cost_left(hosting, language, 3, target) - words;
    let applied = hosting.apply_asked(core, prim, args as usize);
    hosting.is_whole();
    match applied.answer {
        PrimAnswer::Fails(error) => {
            match give_up(
                hosting, alloc, walk, language, target, name, args, implied, handler, error,
            ) {
                Ok(turn) => Ok(turn),
                Err(_) => Err(RunErr::OutOfMemory),
            }
        }
        PrimAnswer::Done(word) => {
            write_line(hosting, alloc, prim, out)?;
            hosting.perform(goal, cost, applied.heap, words, word);
            make_room(walk, alloc, hosting.next())?;
            Ok(Turn::On)
        }
    }
}

// A primitive is served.
fn perform_known<K: Sink>(
    hosting: &mut Hosting,
    alloc: Global,
    walk: &mut Walk,
    language: &Language,
    out: &mut K,
    target: u64,
    prim: Primitive,
    name: Name,
    args: u8,
    implied: bool,
    handler: bool,
) -> Result<Turn, RunErr>
    requires at { StandsAt language.now (host hosting.old) 3 target }
    requires small { target ≤ 2 ^ 61 }
    requires core { KnowsCore (host hosting.old) language.now }
    requires room { (host hosting.old).next ≤ walk.old }
    requires known { IsKnown language.now (host hosting.old) prim name args implied handler }
    requires count { args ≤ 5 }
    ensures served { IfOk result (λ t. Served language.now 3 (host hosting.old) (host hosting.new) target (K.taken out.old) (K.taken out.new) t) }
    ensures roomy { OnOk result ((host hosting.new).next ≤ walk.new) }
    ensures grown { walk.old ≤ walk.new }
    ensures broken { OnErr result (Breaks language.now 3 (host hosting.old) target (K.taken out.old) (K.taken out.new)) }
    ensures later { K.faults out.old ≤ K.faults out.new }
    ensures cause { IsErrOf result Write → Rose (K.faults out.old) (K.faults out.new) }
{
    let words = hosting.words_taken(prim, hosting.register(8));
    if MOST_COST < hosting.cost() + words as u64 {
        return Ok(fail_costly(
            hosting, language, target, prim, name, args, implied, handler, words,
        ));
    }
    apply(
        hosting, alloc, walk, language, out, target, prim, name, args, implied, handler, words,
    )
}

// The service of a node at whose trap the machine stands, which is a primitive's.
fn perform_node<K: Sink>(
    hosting: &mut Hosting,
    alloc: Global,
    walk: &mut Walk,
    language: &Language,
    out: &mut K,
    target: u64,
    node: Node,
) -> Result<Turn, RunErr>
    requires at { StandsAt language.now (host hosting.old) 3 target }
    requires small { target ≤ 2 ^ 61 }
    requires core { KnowsCore (host hosting.old) language.now }
    requires room { (host hosting.old).next ≤ walk.old }
    requires here { node_here (host hosting.old) ≡ Some node }
    ensures served { IfOk result (λ t. Served language.now 3 (host hosting.old) (host hosting.new) target (K.taken out.old) (K.taken out.new) t) }
    ensures roomy { OnOk result ((host hosting.new).next ≤ walk.new) }
    ensures grown { walk.old ≤ walk.new }
    ensures broken { OnErr result (Breaks language.now 3 (host hosting.old) target (K.taken out.old) (K.taken out.new)) }
    ensures later { K.faults out.old ≤ K.faults out.new }
    ensures cause { IsErrOf result Write → Rose (K.faults out.old) (K.faults out.new) }
{
    match node {
        Node::Prim {
            name,
            args,
            implied,
            handler,
        } => {
            match language.primitive(name, args) {
                None => {
                    let error = ErrorName::PrimitiveNotDefined;
                    match give_up(
                        hosting, alloc, walk, language, target, name, args, implied, handler, error,
                    ) {
                        Ok(turn) => Ok(turn),
                        Err(_) => Err(RunErr::OutOfMemory),
                    }
                }
                Some(prim) => perform_known(
                    hosting, alloc, walk, language, out, target, prim, name, args, implied, handler,
                ),
            }
        }
        _ => unreachable!(),
    }
}

// A primitive's service.
fn perform<K: Sink>(
    hosting: &mut Hosting,
    alloc: Global,
    walk: &mut Walk,
    language: &Language,
    out: &mut K,
    target: u64,
) -> Result<Turn, RunErr>
    requires at { StandsAt language.now (host hosting.old) 3 target }
    requires small { target ≤ 2 ^ 61 }
    requires core { KnowsCore (host hosting.old) language.now }
    requires room { (host hosting.old).next ≤ walk.old }
    ensures served { IfOk result (λ t. Served language.now 3 (host hosting.old) (host hosting.new) target (K.taken out.old) (K.taken out.new) t) }
    ensures roomy { OnOk result ((host hosting.new).next ≤ walk.new) }
    ensures grown { walk.old ≤ walk.new }
    ensures broken { OnErr result (Breaks language.now 3 (host hosting.old) target (K.taken out.old) (K.taken out.new)) }
    ensures later { K.faults out.old ≤ K.faults out.new }
    ensures cause { IsErrOf result Write → Rose (K.faults out.old) (K.faults out.new) }
{
    match node_here(hosting) {
        None => unreachable!(),
        Some(node) => perform_node(hosting, alloc, walk, language, out, target, node),
    }
}

// The service of a trap.
fn serve<K: Sink>(
    hosting: &mut Hosting,
    alloc: Global,
    walk: &mut Walk,
    language: &Language,
    out: &mut K,
    trap: u8,
    target: u64,
) -> Result<Turn, RunErr>
    requires at { StandsAt language.now (host hosting.old) trap target }
    requires small { target ≤ 2 ^ 61 }
    requires core { KnowsCore (host hosting.old) language.now }
    requires room { (host hosting.old).next ≤ walk.old }
    ensures served { IfOk result (λ t. Served language.now trap (host hosting.old) (host hosting.new) target (K.taken out.old) (K.taken out.new) t) }
    ensures roomy { OnOk result ((host hosting.new).next ≤ walk.new) }
    ensures grown { walk.old ≤ walk.new }
    ensures broken { OnErr result (Breaks language.now trap (host hosting.old) target (K.taken out.old) (K.taken out.new)) }
    ensures later { K.faults out.old ≤ K.faults out.new }
    ensures cause { IsErrOf result Write → Rose (K.faults out.old) (K.faults out.new) }
{
    match trap {
        1 => match send(hosting, alloc, walk, language, target) {
            Ok(turn) => Ok(turn),
            Err(_) => Err(RunErr::OutOfMemory),
        },
        2 => Ok(wait(hosting, language, target)),
        3 => perform(hosting, alloc, walk, language, out, target),
        4 => Ok(leave(hosting, language, target)),
        8 => Ok(fill(hosting, language, target)),
        9 => Ok(end(hosting, language, target)),
        _ => unreachable!(),
    }
}

// A turn: the service of a trap, and the words from there to the next, where the run hasn't ended.
pub(crate) fn take_turn<K: Sink>(
    hosting: &mut Hosting,
    alloc: Global,
    walk: &mut Walk,
    language: &Language,
    out: &mut K,
    trap: u8,
    target: u64,
) -> Result<Passed, RunErr>
    requires at { StandsAt language.now (host hosting.old) trap target }
    requires small { target ≤ 2 ^ 61 }
    requires core { KnowsCore (host hosting.old) language.now }
    requires room { (host hosting.old).next ≤ walk.old }
    ensures on { IfOk result (λ p. TurnsOn language.now trap (host hosting.old) (host hosting.new) target (K.taken out.old) (K.taken out.new) p) }
    ensures roomy { OnOk result ((host hosting.new).next ≤ walk.new) }
    ensures grown { walk.old ≤ walk.new }
    ensures broken { OnErr result (Breaks language.now trap (host hosting.old) target (K.taken out.old) (K.taken out.new)) }
    ensures later { K.faults out.old ≤ K.faults out.new }
    ensures cause { IsErrOf result Write → Rose (K.faults out.old) (K.faults out.new) }
{
    match serve(hosting, alloc, walk, language, out, trap, target)? {
        Turn::On => {
            let came = go(hosting, language, target);
            Ok(Passed {
                next: Some(came.trap),
                instructions: came.instructions,
            })
        }
        Turn::Ended => Ok(Passed {
            next: None,
            instructions: 0,
        }),
    }
}
