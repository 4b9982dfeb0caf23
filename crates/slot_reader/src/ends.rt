// Reads a sign behind a slot, which ends it; and the ends of lists.
ghost use Rattle.std.specs.Prelude.{◌≡◌};
ghost use Rattle.self_grammar.specs.declared.pieces.Item.TheVariants as items;
ghost use Rattle.self_grammar.specs.declared.pieces.SlotForm.TheVariants as form;
ghost use Rattle.reader_states.specs.Turns.{event_in, listed, Turns};
ghost use Rattle.slot_reader.specs.SlotTurns.{misfits, bar_event, shut_coded, shut_at, at_bar, at_end, at_period, done_turn, path_turn, member_done_turn, argument_done, argument_done_turn, lone_done, method_done, slot_done, behind_turn, lone_stopped_turn};

use reader_states::{
    At, AtContents, AtEnd, AtName, Contents, Counts, Event, Frame, Heading, Holder, Scope, Slots,
    Stack, Stop, Turn, pop_list, pop_slot, pop_slots, quiet, saying, simply, within,
};
use self_grammar::{Breach, Item, ReadKind, SlotForm, Spot, Symbol, Words};
use std::alloc::Global;

/// A method must have so many arguments: one that has others breaks a rule, whose place is that of its slot.
pub fn misfits(wanted: usize, spot: Spot, scope: &Scope) -> Option<Breach>
    ensures { listed result ≡ misfits wanted spot scope.now }
{
    if scope.arguments() == wanted {
        return None;
    }
    Some(Breach {
        kind: ReadKind::BadSyntax,
        place: Some(spot),
    })
}

// What is known at the bar that closes the slots of what surely is a method.
fn bar_event(heading: Heading, scope: &Scope) -> Event
    ensures { event_in result ≡ bar_event heading scope.now }
{
    if heading.wanted == 0 {
        return quiet();
    }
    Event {
        broken: misfits(heading.wanted, heading.spot, scope),
        ..quiet()
    }
}

// That bar.
fn close_coded(
    heading: Heading,
    frames: Stack<Frame>,
    counts: Counts,
    paren: Spot,
    scope: Scope,
) -> Result<Turn, Stop>
    ensures { Turns result (shut_coded paren scope heading frames counts) }
{
    let event = bar_event(heading, &scope);
    within(
        counts,
        event,
        At::Contents(AtContents::Shut(paren), scope),
        Frame::Slot(Contents::Coded(heading)),
        frames,
    )
}

// The bar that closes the slots of what may be a method.
fn close_slots(
    frames: Stack<Frame>,
    counts: Counts,
    paren: Spot,
    scope: Scope,
) -> Result<Turn, Stop>
    ensures { Turns result (shut_at paren scope frames counts) }
{
    let (contents, frames) = pop_slot(frames)?;
    match contents {
        Contents::Undecided(_) => {
            return within(
                counts,
                quiet(),
                At::Contents(AtContents::Shut(paren), scope),
                Frame::Slot(contents),
                frames,
            );
        }
        Contents::Coded(heading) => return close_coded(heading, frames, counts, paren, scope),
        _ => return Err(Stop::BadSyntax),
    }
}

// The bar that closes a list.
pub(crate) fn end_at_bar(frames: Stack<Frame>, counts: Counts) -> Result<Turn, Stop>
    ensures { Turns result (at_bar frames counts) }
{
    let (holder, scope, frames) = pop_list(frames)?;
    match holder {
        Holder::World => return Err(Stop::BadSyntax),
        Holder::Bars(paren) => return close_slots(frames, counts, paren, scope),
        Holder::Object(paren) => {
            return simply(
                counts,
                quiet(),
                At::Contents(AtContents::DataShut(paren), scope),
                frames,
            );
        }
    }
}

// The end of a world.
pub(crate) fn end_at_end(alloc: Global, frames: Stack<Frame>, counts: Counts) -> Result<Turn, Stop>
    ensures { Turns result (at_end frames counts) }
{
    let (holder, _, _) = pop_list(frames)?;
    let Holder::World = holder else {
        return Err(Stop::BadSyntax);
    };
    simply(counts, quiet(), At::Finished, Stack::new(alloc))
}

// A period behind a slot.
fn end_at_period(frames: Stack<Frame>, counts: Counts) -> Result<Turn, Stop>
    ensures { Turns result (at_period frames counts) }
{
    let (holder, scope, frames) = pop_list(frames)?;
    within(
        counts,
        quiet(),
        At::Name(AtName::Slot),
        Frame::Slots(Slots::List(holder, scope)),
        frames,
    )
}

// A slot ends at this sign, with its item.
pub(crate) fn end_slot(
    alloc: Global,
    frames: Stack<Frame>,
    counts: Counts,
    item: Option<Item>,
    symbol: Symbol,
) -> Result<Turn, Stop>
    ensures { Turns result (done_turn frames counts item symbol) }
{
    let mut counts = counts;
    counts.place(item)?;
    match symbol {
        Symbol::Period => return end_at_period(frames, counts),
        Symbol::Bar => return end_at_bar(frames, counts),
        Symbol::End => return end_at_end(alloc, frames, counts),
        _ => return Err(Stop::BadSyntax),
    }
}

// A path goes on, where a slot ends with one.
fn follow_path(
    item: Item,
    path: bool,
    frames: Stack<Frame>,
    counts: Counts,
    name: u32,
    spot: Spot,
) -> Result<Turn, Stop>
    ensures { Turns result (path_turn item path frames counts name spot) }
{
    if !path {
        return Err(Stop::BadSyntax);
    }
    let further = Item::Further { name, spot };
    simply(
        counts,
        saying(further),
        At::Behind(AtEnd::Member { item, path }),
        frames,
    )
}

/// Reads a sign behind a slot, which ends with this item.
pub fn follow_member(
    alloc: Global,
    item: Item,
    path: bool,
    frames: Stack<Frame>,
    counts: Counts,
    symbol: Symbol,
    spot: Spot,
) -> Result<Turn, Stop>
    ensures { Turns result (member_done_turn item path frames counts symbol spot) }
{
    if let Symbol::Name { name, .. } = symbol {
        return follow_path(item, path, frames, counts, name, spot);
    }
    end_slot(alloc, frames, counts, Some(item), symbol)
}

// An argument ends, in no list of a world.
fn end_argument(
    alloc: Global,
    frames: Stack<Frame>,
    counts: Counts,
    symbol: Symbol,
) -> Result<Turn, Stop>
    ensures { Turns result (argument_done frames counts symbol) }
{
    let (holder, scope, frames) = pop_list(frames)?;
    if let Holder::World = holder {
        return Err(Stop::BadSyntax);
    }
    let mut frames = frames;
    frames.push(Frame::Slots(Slots::List(holder, scope)))?;
    end_slot(alloc, frames, counts, None, symbol)
}

/// Reads a sign behind an argument.
pub fn follow_argument(
    alloc: Global,
    frames: Stack<Frame>,
    counts: Counts,
    symbol: Symbol,
) -> Result<Turn, Stop>
    ensures { Turns result (argument_done_turn frames counts symbol) }
{
    match symbol {
        Symbol::Period => return end_argument(alloc, frames, counts, Symbol::Period),
        Symbol::Bar => return end_argument(alloc, frames, counts, Symbol::Bar),
        Symbol::End => return end_argument(alloc, frames, counts, Symbol::End),
        _ => return Err(Stop::BadSyntax),
    }
}

// The method slot of an edit ends.
fn end_lone(
    alloc: Global,
    item: Item,
    frames: Stack<Frame>,
    counts: Counts,
    symbol: Symbol,
) -> Result<Turn, Stop>
    ensures { Turns result (lone_done item frames counts symbol) }
{
    let mut counts = counts;
    counts.place(Some(item))?;
    match symbol {
        Symbol::Period => {
            return within(
                counts,
                quiet(),
                At::Behind(AtEnd::Edit),
                Frame::Slots(Slots::Edit),
                frames,
            );
        }
        Symbol::End => return simply(counts, quiet(), At::Finished, Stack::new(alloc)),
        _ => return Err(Stop::BadSyntax),
    }
}

// A slot with a method ends.
fn end_method(
    alloc: Global,
    item: Item,
    frames: Stack<Frame>,
    counts: Counts,
    symbol: Symbol,
) -> Result<Turn, Stop>
    ensures { Turns result (method_done item frames counts symbol) }
{
    let (slots, frames) = pop_slots(frames)?;
    match slots {
        Slots::List(holder, scope) => {
            let mut scope = scope;
            let mut frames = frames;
            scope.mark_object();
            frames.push(Frame::Slots(Slots::List(holder, scope)))?;
            return end_slot(alloc, frames, counts, Some(item), symbol);
        }
        Slots::Edit => return end_lone(alloc, item, frames, counts, symbol),
    }
}

// The item of a slot with a method.
fn method_item(words: Words, spot: Spot) -> Item
    ensures { result ≡ items.Slot words form.Method spot }
{
    Item::Slot {
        words,
        form: SlotForm::Method,
        spot,
    }
}

// The slot whose contents were a method ends.
fn end_coded(
    alloc: Global,
    frames: Stack<Frame>,
    counts: Counts,
    symbol: Symbol,
) -> Result<Turn, Stop>
    ensures { Turns result (slot_done frames counts symbol) }
{
    let (contents, frames) = pop_slot(frames)?;
    match contents {
        Contents::Undecided(label) => {
            let item = method_item(Words::One(label.name), label.spot);
            return end_method(alloc, item, frames, counts, symbol);
        }
        Contents::Coded(heading) => {
            let item = method_item(heading.words, heading.spot);
            return end_method(alloc, item, frames, counts, symbol);
        }
        _ => return Err(Stop::BadSyntax),
    }
}

/// Reads a sign behind a method.
pub fn follow_method(
    alloc: Global,
    frames: Stack<Frame>,
    counts: Counts,
    symbol: Symbol,
) -> Result<Turn, Stop>
    ensures { Turns result (behind_turn frames counts symbol) }
{
    match symbol {
        Symbol::Period => return end_coded(alloc, frames, counts, Symbol::Period),
        Symbol::Bar => return end_coded(alloc, frames, counts, Symbol::Bar),
        Symbol::End => return end_coded(alloc, frames, counts, Symbol::End),
        _ => return Err(Stop::BadSyntax),
    }
}

/// Reads a sign behind the period of an edit.
pub fn follow_lone(
    alloc: Global,
    frames: Stack<Frame>,
    counts: Counts,
    symbol: Symbol,
) -> Result<Turn, Stop>
    ensures { Turns result (lone_stopped_turn frames counts symbol) }
{
    let Symbol::End = symbol else {
        return Err(Stop::BadSyntax);
    };
    simply(counts, quiet(), At::Finished, Stack::new(alloc))
}
