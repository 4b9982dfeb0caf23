//! Primitives that fail: such a one ends the activity, or hands a message over to its handler, and what that meets answers it.
ghost use Rattle.std.specs.Prelude.{◌≡◌, ◌<◌, ◌≤◌, ◌≢◌, ◌+◌, ◌-◌, ◌^◌, slice_get, IfOk, Some, false};
ghost use Rattle.self_terms.specs.declared.nodes.Node.TheVariants.{Prim};
ghost use Rattle.object_maps.specs.declared.maps.SlotKind.TheVariants.{Method};
ghost use Rattle.slot_lookup.specs.declared.sends.Found.TheVariants.{One};
ghost use Rattle.plain_words.specs.Code.{is_sum};
ghost use Rattle.plain_sends.specs.Found.{data_word};
ghost use Rattle.plain_answers.specs.Found.{error_of};
ghost use Rattle.plain_answers.specs.Whole.{whole};
ghost use Rattle.plain_turns.specs.Asking.{node_here};
ghost use Rattle.plain_turns.specs.Handlers.{behind_primitive};
ghost use Rattle.plain_host.specs.Hosted.{host};
ghost use Rattle.plain_core.specs.Handing.{FailsBy, HasFailed, found_by_message, with_message};
ghost use Rattle.plain_core.specs.Language.{KnowsCore};
ghost use Rattle.plain_core.specs.Turning.{Quiet, StandsAt};

use crate::language::Language;
use crate::strings::{error_word, primitive_word};
use crate::turning::{Turn, cost_left, fail, left, place_here, refusal};
use object_maps::SlotKind;
use plain_host::Hosting;
use self_terms::{BodyId, ErrorName, INT_ADD, INT_SUB, Name, OutOfMemory, Selector};
use slot_lookup::{Found, Walk, lookup};
use std::alloc::Global;

/// How a primitive with a handler has failed: its name and number of arguments, and the words of the strings of the error and of the primitive.
#[derive(Clone, Copy, Drop)]
pub(crate) struct Failure {
    pub name: Name,
    pub args: u8,
    pub error: u32,
    pub primitive: u32,
}

// Whether a primitive is a sum or a difference of integers.
fn is_sum(name: Name, args: u8) -> bool
    ensures { result ≡ is_sum name.0 args }
{
    args == 1 && (name == INT_ADD || name == INT_SUB)
}

// How many bytes before the trap of a primitive with a handler the node's poll stands.
fn back_of(name: Name, args: u8) -> u32
    ensures { result ≡ behind_primitive name args }
{
    let back = 32 + 4 * args as u32;
    if is_sum(name, args) { back + 24 } else { back }
}

// The message to the handler stands in place of the primitive's.
fn hand_over(hosting: &mut Hosting, failure: Failure)
    requires { failure.args + 1 ≤ 5 }
    ensures { host hosting.new ≡ with_message failure (host hosting.old) }
{
    let handler = hosting.register(9 + failure.args);
    hosting.hand_over(handler, failure.error, failure.primitive);
}

// What that message meets.
fn find(
    hosting: &Hosting,
    walk: &mut Walk,
    language: &Language,
    _target: u64,
    failure: Failure,
) -> Found
    requires at { StandsAt language.now (host hosting.now) 3 _target }
    requires room { (host hosting.now).next ≤ walk.old }
    requires failed { HasFailed language.now (host hosting.now) failure }
    ensures found { result ≡ found_by_message language.now walk.old failure (host hosting.now) }
    ensures same { walk.new ≡ walk.old }
{
    let handler = hosting.register(9 + failure.args);
    lookup(
        hosting.maps(),
        hosting.memory(),
        handler,
        Selector {
            name: language.failure(),
            args: 2,
        },
        walk,
    )
}

// Data answers the message.
fn answer(
    hosting: &mut Hosting,
    _walk: &Walk,
    language: &Language,
    target: u64,
    failure: Failure,
    word: u32,
) -> Turn
    requires at { StandsAt language.now (host hosting.old) 3 target }
    requires small { target ≤ 2 ^ 61 }
    requires room { (host hosting.old).next ≤ _walk.now }
    requires failed { HasFailed language.now (host hosting.old) failure }
    requires found { data_word (whole (with_message failure (host hosting.old))) (found_by_message language.now _walk.now failure (host hosting.old)) ≡ Some word }
    ensures { Quiet language.now 3 (host hosting.old) (host hosting.new) target result }
{
    let goal = left(hosting, language, 3, target) - 1;
    let cost = cost_left(hosting, language, 3, target);
    hand_over(hosting, failure);
    hosting.answer_data(goal, cost, word);
    Turn::On
}

// The message meets no slot, or two.
fn miss(
    hosting: &mut Hosting,
    _walk: &Walk,
    language: &Language,
    target: u64,
    failure: Failure,
    error: ErrorName,
) -> Turn
    requires at { StandsAt language.now (host hosting.old) 3 target }
    requires small { target ≤ 2 ^ 61 }
    requires room { (host hosting.old).next ≤ _walk.now }
    requires failed { HasFailed language.now (host hosting.old) failure }
    requires found { error_of (found_by_message language.now _walk.now failure (host hosting.old)) ≡ Some error }
    ensures { Quiet language.now 3 (host hosting.old) (host hosting.new) target result }
{
    let cost = cost_left(hosting, language, 3, target);
    let place = place_here(hosting);
    hand_over(hosting, failure);
    hosting.fail_unmarked(0, cost, error, place);
    Turn::Ended
}

// A method with a unit is called, or refused.
fn test(
    hosting: &mut Hosting,
    _walk: &Walk,
    language: &Language,
    target: u64,
    failure: Failure,
    holder: u32,
    body: BodyId,
    at: u32,
) -> Turn
    requires at { StandsAt language.now (host hosting.old) 3 target }
    requires small { target ≤ 2 ^ 61 }
    requires room { (host hosting.old).next ≤ _walk.now }
    requires failed { HasFailed language.now (host hosting.old) failure }
    requires found { found_by_message language.now _walk.now failure (host hosting.old) ≡ One holder (Method body) }
    requires entry { slice_get (host hosting.old).entries (body.0 - 1) ≡ Some at }
    requires there { at ≢ 0 }
    ensures { Quiet language.now 3 (host hosting.old) (host hosting.new) target result }
{
    let goal = left(hosting, language, 3, target);
    let cost = cost_left(hosting, language, 3, target);
    let place = place_here(hosting);
    hand_over(hosting, failure);
    match refusal(hosting, body.0) {
        Some(error) => {
            hosting.fail_unmarked(0, cost, error, place);
            Turn::Ended
        }
        None => {
            hosting.call(goal, cost, at, holder);
            Turn::On
        }
    }
}

// The unit of a method is put, and the primitive asked again.
fn put(
    hosting: &mut Hosting,
    alloc: Global,
    _walk: &Walk,
    language: &Language,
    target: u64,
    failure: Failure,
    _holder: u32,
    body: BodyId,
) -> Result<Turn, OutOfMemory>
    requires at { StandsAt language.now (host hosting.old) 3 target }
    requires small { target ≤ 2 ^ 61 }
    requires room { (host hosting.old).next ≤ _walk.now }
    requires failed { HasFailed language.now (host hosting.old) failure }
    requires found { found_by_message language.now _walk.now failure (host hosting.old) ≡ One _holder (Method body) }
    requires none { slice_get (host hosting.old).entries (body.0 - 1) ≡ Some 0 }
    ensures { IfOk result (λ t. Quiet language.now 3 (host hosting.old) (host hosting.new) target t) }
{
    let goal = left(hosting, language, 3, target);
    let cost = cost_left(hosting, language, 3, target);
    let back = back_of(failure.name, failure.args);
    hand_over(hosting, failure);
    hosting.put_unit(alloc, body.0)?;
    hosting.is_whole();
    hosting.go_back(goal, cost, back);
    Ok(Turn::On)
}

// The message meets a method.
fn enter(
    hosting: &mut Hosting,
    alloc: Global,
    walk: &Walk,
    language: &Language,
    target: u64,
    failure: Failure,
    holder: u32,
    body: BodyId,
) -> Result<Turn, OutOfMemory>
    requires at { StandsAt language.now (host hosting.old) 3 target }
    requires small { target ≤ 2 ^ 61 }
    requires room { (host hosting.old).next ≤ walk.now }
    requires failed { HasFailed language.now (host hosting.old) failure }
    requires found { found_by_message language.now walk.now failure (host hosting.old) ≡ One holder (Method body) }
    ensures { IfOk result (λ t. Quiet language.now 3 (host hosting.old) (host hosting.new) target t) }
{
    match hosting.entry_of(body.0) {
        None => unreachable!(),
        Some(0) => put(
            hosting, alloc, walk, language, target, failure, holder, body,
        ),
        Some(at) => Ok(test(hosting, walk, language, target, failure, holder, body, at)),
    }
}

// The message meets a slot.
fn meet(
    hosting: &mut Hosting,
    alloc: Global,
    walk: &Walk,
    language: &Language,
    target: u64,
    failure: Failure,
    holder: u32,
    kind: SlotKind,
) -> Result<Turn, OutOfMemory>
    requires at { StandsAt language.now (host hosting.old) 3 target }
    requires small { target ≤ 2 ^ 61 }
    requires room { (host hosting.old).next ≤ walk.now }
    requires failed { HasFailed language.now (host hosting.old) failure }
    requires found { found_by_message language.now walk.now failure (host hosting.old) ≡ One holder kind }
    ensures { IfOk result (λ t. Quiet language.now 3 (host hosting.old) (host hosting.new) target t) }
{
    match kind {
        SlotKind::Constant(word) => Ok(answer(hosting, walk, language, target, failure, word)),
        SlotKind::Parent(word) => Ok(answer(hosting, walk, language, target, failure, word)),
        SlotKind::Field(place) => {
            let word = hosting.word(holder + 7 + 4 * place);
            Ok(answer(hosting, walk, language, target, failure, word))
        }
        SlotKind::Assign(_) => unreachable!(),
        SlotKind::Method(body) => {
            enter(
                hosting, alloc, walk, language, target, failure, holder, body,
            )
        }
    }
}

// A failed primitive hands a message over to its handler.
fn hand(
    hosting: &mut Hosting,
    alloc: Global,
    walk: &mut Walk,
    language: &Language,
    target: u64,
    failure: Failure,
) -> Result<Turn, OutOfMemory>
    requires at { StandsAt language.now (host hosting.old) 3 target }
    requires small { target ≤ 2 ^ 61 }
    requires room { (host hosting.old).next ≤ walk.old }
    requires failed { HasFailed language.now (host hosting.old) failure }
    ensures served { IfOk result (λ t. Quiet language.now 3 (host hosting.old) (host hosting.new) target t) }
    ensures same { walk.new ≡ walk.old }
{
    match find(hosting, walk, language, target, failure) {
        Found::NotUnderstood => {
            let error = ErrorName::NotUnderstood;
            Ok(miss(hosting, walk, language, target, failure, error))
        }
        Found::Ambiguous { .. } => {
            let error = ErrorName::Ambiguous;
            Ok(miss(hosting, walk, language, target, failure, error))
        }
        Found::One { holder, kind } => {
            meet(
                hosting, alloc, walk, language, target, failure, holder, kind,
            )
        }
    }
}

// A primitive without a handler fails.
fn end(
    hosting: &mut Hosting,
    language: &Language,
    target: u64,
    _name: Name,
    _args: u8,
    _implied: bool,
    error: ErrorName,
) -> Turn
    requires at { StandsAt language.now (host hosting.old) 3 target }
    requires small { target ≤ 2 ^ 61 }
    requires node { node_here (host hosting.old) ≡ Some (Prim _name _args _implied false) }
    requires fails { FailsBy language.now (host hosting.old) _name _args error }
    ensures { Quiet language.now 3 (host hosting.old) (host hosting.new) target result }
{
    fail(hosting, language, 3, target, error)
}

/// A primitive fails, with a handler or without.
pub(crate) fn give_up(
    hosting: &mut Hosting,
    alloc: Global,
    walk: &mut Walk,
    language: &Language,
    target: u64,
    name: Name,
    args: u8,
    implied: bool,
    handler: bool,
    error: ErrorName,
) -> Result<Turn, OutOfMemory>
    requires at { StandsAt language.now (host hosting.old) 3 target }
    requires small { target ≤ 2 ^ 61 }
    requires core { KnowsCore (host hosting.old) language.now }
    requires room { (host hosting.old).next ≤ walk.old }
    requires node { node_here (host hosting.old) ≡ Some (Prim name args implied handler) }
    requires fails { FailsBy language.now (host hosting.old) name args error }
    ensures served { IfOk result (λ t. Quiet language.now 3 (host hosting.old) (host hosting.new) target t) }
    ensures same { walk.new ≡ walk.old }
{
    if !handler {
        return Ok(end(hosting, language, target, name, args, implied, error));
    }
    let failure = Failure {
        name,
        args,
        error: error_word(hosting, language, error),
        primitive: primitive_word(hosting, language, name, args),
    };
    hand(hosting, alloc, walk, language, target, failure)
}
