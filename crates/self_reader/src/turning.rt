// What a sign does, by where it stands.
ghost use Rattle.reader_states.specs.Turns.{Turns};
ghost use Rattle.self_reader.specs.Turning.{turn, turn_in_code, turn_in_name, turn_in_arguments, turn_in_contents, turn_in_data, turn_behind, turn_in_block};

use code_reader::{begin, end, follow_delegate, go_on};
use contents_reader::{
    at_local, local_arrow, local_done, local_equals, local_named, take_contents, take_data,
    take_data_opened, take_data_shut, take_opened, take_shut,
};
use reader_states::{
    At, AtArgument, AtCode, AtContents, AtData, AtEnd, AtLocal, AtName, Counts, Frame, Scope,
    Stack, Stop, Turn,
};
use self_grammar::{Limits, Spot, Symbol};
use slot_reader::{
    begin_slot, follow_argument, follow_keyword_argument, follow_keywords, follow_lone,
    follow_member, follow_method, follow_name, follow_operand, follow_operator, follow_star,
    want_keyword_argument,
};
use std::alloc::Global;

// In code.
fn turn_in_code(
    alloc: Global,
    limits: Limits,
    at: AtCode,
    frames: Stack<Frame>,
    counts: Counts,
    symbol: Symbol,
    spot: Spot,
) -> Result<Turn, Stop>
    ensures { Turns result (turn_in_code limits at frames counts symbol spot) }
{
    match at {
        AtCode::Wanting => return begin(alloc, frames, counts, symbol, spot),
        AtCode::Having => return go_on(limits, frames, counts, symbol, spot),
        AtCode::Delegated { to, spot: begin } => {
            return follow_delegate(to, begin, frames, counts, symbol, spot);
        }
        AtCode::Ended => return end(frames, counts, symbol, spot),
    }
}

// In the name of a slot.
fn turn_in_name(
    alloc: Global,
    limits: Limits,
    at: AtName,
    frames: Stack<Frame>,
    counts: Counts,
    symbol: Symbol,
    spot: Spot,
) -> Result<Turn, Stop>
    ensures { Turns result (turn_in_name limits at frames counts symbol spot) }
{
    match at {
        AtName::Slot => return begin_slot(alloc, limits, frames, counts, symbol, spot),
        AtName::Named(label) => return follow_name(alloc, label, frames, counts, symbol),
        AtName::Starred(label) => return follow_star(label, frames, counts, symbol),
        AtName::Operator {
            operator,
            spot: begin,
        } => {
            return follow_operator(alloc, limits, operator, begin, frames, counts, symbol, spot);
        }
        AtName::Keyword(heading) => {
            return follow_keywords(alloc, limits, heading, frames, counts, symbol, spot);
        }
    }
}

// In the name of a slot that has arguments.
fn turn_in_arguments(
    limits: Limits,
    at: AtArgument,
    inner: Scope,
    frames: Stack<Frame>,
    counts: Counts,
    symbol: Symbol,
    spot: Spot,
) -> Result<Turn, Stop>
    ensures { Turns result (turn_in_arguments limits at inner frames counts symbol spot) }
{
    match at {
        AtArgument::Operator {
            operator,
            spot: begin,
        } => return follow_operand(operator, begin, inner, frames, counts, symbol),
        AtArgument::Keyword(heading) => {
            return follow_keyword_argument(limits, heading, inner, frames, counts, symbol);
        }
        AtArgument::Wanting(heading) => {
            return want_keyword_argument(limits, heading, inner, frames, counts, symbol, spot);
        }
    }
}

// In the contents of a slot.
fn turn_in_contents(
    alloc: Global,
    at: AtContents,
    inner: Scope,
    frames: Stack<Frame>,
    counts: Counts,
    symbol: Symbol,
    spot: Spot,
) -> Result<Turn, Stop>
    ensures { Turns result (turn_in_contents at inner frames counts symbol spot) }
{
    match at {
        AtContents::Wanted => return take_contents(inner, frames, counts, symbol, spot),
        AtContents::Opened(paren) => {
            return take_opened(alloc, paren, inner, frames, counts, symbol, spot);
        }
        AtContents::Shut(paren) => {
            return take_shut(alloc, paren, inner, frames, counts, symbol, spot);
        }
        AtContents::DataShut(paren) => {
            return take_data_shut(paren, inner, frames, counts, symbol);
        }
    }
}

// In contents that are no method.
fn turn_in_data(
    alloc: Global,
    at: AtData,
    frames: Stack<Frame>,
    counts: Counts,
    symbol: Symbol,
    spot: Spot,
) -> Result<Turn, Stop>
    ensures { Turns result (turn_in_data at frames counts symbol spot) }
{
    match at {
        AtData::Wanted => return take_data(frames, counts, symbol, spot),
        AtData::Opened(paren) => return take_data_opened(alloc, paren, frames, counts, symbol),
    }
}

// Behind a slot.
fn turn_behind(
    alloc: Global,
    at: AtEnd,
    frames: Stack<Frame>,
    counts: Counts,
    symbol: Symbol,
    spot: Spot,
) -> Result<Turn, Stop>
    ensures { Turns result (turn_behind at frames counts symbol spot) }
{
    match at {
        AtEnd::Method => return follow_method(alloc, frames, counts, symbol),
        AtEnd::Member { item, path } => {
            return follow_member(alloc, item, path, frames, counts, symbol, spot);
        }
        AtEnd::Argument => return follow_argument(alloc, frames, counts, symbol),
        AtEnd::Edit => return follow_lone(alloc, frames, counts, symbol),
    }
}

// In the slots of a block.
fn turn_in_block(
    limits: Limits,
    at: AtLocal,
    frames: Stack<Frame>,
    counts: Counts,
    symbol: Symbol,
    spot: Spot,
) -> Result<Turn, Stop>
    ensures { Turns result (turn_in_block limits at frames counts symbol spot) }
{
    match at {
        AtLocal::Slot => return at_local(limits, frames, counts, symbol, spot),
        AtLocal::Named(label) => return local_named(label, frames, counts, symbol),
        AtLocal::Equals(label) => return local_equals(label, frames, counts, symbol, spot),
        AtLocal::Arrow(label) => return local_arrow(label, frames, counts, symbol, spot),
        AtLocal::Done { item, path } => {
            return local_done(item, path, frames, counts, symbol, spot);
        }
    }
}

// Wherever it stands.
pub(crate) fn turn(
    alloc: Global,
    limits: Limits,
    at: At,
    frames: Stack<Frame>,
    counts: Counts,
    symbol: Symbol,
    spot: Spot,
) -> Result<Turn, Stop>
    ensures { Turns result (turn limits at frames counts symbol spot) }
{
    match at {
        At::Code(at) => return turn_in_code(alloc, limits, at, frames, counts, symbol, spot),
        At::Name(at) => return turn_in_name(alloc, limits, at, frames, counts, symbol, spot),
        At::Argued(at, inner) => {
            return turn_in_arguments(limits, at, inner, frames, counts, symbol, spot);
        }
        At::Contents(at, inner) => {
            return turn_in_contents(alloc, at, inner, frames, counts, symbol, spot);
        }
        At::Data(at) => return turn_in_data(alloc, at, frames, counts, symbol, spot),
        At::Behind(at) => return turn_behind(alloc, at, frames, counts, symbol, spot),
        At::Local(at) => return turn_in_block(limits, at, frames, counts, symbol, spot),
        At::Finished => return Err(Stop::BadSyntax),
    }
}
