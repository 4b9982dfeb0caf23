// Reads a sign where the contents of a slot are wanted, and behind the parentheses and bars with which they begin.
ghost use Rattle.std.specs.Prelude.{◌≡◌, ◌∷◌, Some, not};
ghost use Rattle.self_grammar.specs.Counts.{when, here, quiet};
ghost use Rattle.self_grammar.specs.Scopes.{scope, holder};
ghost use Rattle.self_grammar.specs.declared.signs.ReadKind.TheVariants as kind;
ghost use Rattle.reader_states.specs.Turns.{event_in, listed, Turns, Gives, told, simply};
ghost use Rattle.reader_states.specs.declared.frames.At.TheVariants as at;
ghost use Rattle.reader_states.specs.declared.frames.AtName.TheVariants as name;
ghost use Rattle.reader_states.specs.declared.frames.Frame.TheVariants as f;
ghost use Rattle.reader_states.specs.declared.frames.Holder.TheVariants as list_of;
ghost use Rattle.reader_states.specs.declared.frames.Slots.TheVariants as slots;
ghost use Rattle.slot_reader.specs.SlotTurns.{misfits};
ghost use Rattle.contents_reader.specs.ContentTurns.{marked, marked_at, simple_constant, simple_datum, object_constant, object_datum, opening_item, opened_event, paren_turn, holding_turn, data_wanted_turn, empty_end, is_bar, is_close, bare_opened, opened_turn, data_opened_turn, object_end, at_code, code_begun, code_turn, shut_turn, data_shut_turn};

use code_reader::begin;
use reader_states::{
    At, AtContents, AtData, AtEnd, AtName, Body, Contents, Counts, Event, Expression, Frame,
    Holder, Owner, Scope, Slots, Stack, Stop, Turn, closing, opening, pop_list, pop_slot, quiet,
    saying, simply, slot_item, within,
};
use self_grammar::{Breach, Item, ReadKind, SlotForm, Spot, Symbol};
use slot_reader::misfits;
use std::alloc::Global;

// The list that is open innermost gets a slot that no method has,
fn mark_list(frames: Stack<Frame>) -> Result<Stack<Frame>, Stop>
    ensures { Gives result (marked frames) }
{
    let (holder, scope, frames) = pop_list(frames)?;
    let mut scope = scope;
    scope.mark_object();
    let mut frames = frames;
    frames.push(Frame::Slots(Slots::List(holder, scope)))?;
    Ok(frames)
}

// with contents that end here.
fn mark(frames: Stack<Frame>, counts: Counts, event: Event, at: At) -> Result<Turn, Stop>
    ensures { Turns result (marked_at (event_in event) at frames counts) }
{
    let frames = mark_list(frames)?;
    simply(counts, event, at, frames)
}

// Simple contents of a constant slot, and whether a path may go on.
fn hold(frames: Stack<Frame>, counts: Counts, item: Item, path: bool) -> Result<Turn, Stop>
    ensures { Turns result (simple_constant item path frames counts) }
{
    let (contents, frames) = pop_slot(frames)?;
    let Contents::Undecided(label) = contents else {
        return Err(Stop::BadSyntax);
    };
    let item_at_end = slot_item(label, SlotForm::Constant);
    let at = At::Behind(AtEnd::Member {
        item: item_at_end,
        path,
    });
    simply(counts, saying(item), at, frames)
}

// The same of an assignable slot or a parent.
fn hold_data(frames: Stack<Frame>, counts: Counts, item: Item, path: bool) -> Result<Turn, Stop>
    ensures { Turns result (simple_datum item path frames counts) }
{
    let (contents, frames) = pop_slot(frames)?;
    match contents {
        Contents::Assigned(label) => {
            let form = SlotForm::Assignable {
                setter: label.setter,
            };
            let at = At::Behind(AtEnd::Member {
                item: slot_item(label, form),
                path,
            });
            return simply(counts, saying(item), at, frames);
        }
        Contents::Parental(label) => {
            let at = At::Behind(AtEnd::Member {
                item: slot_item(label, SlotForm::Parent),
                path,
            });
            return mark(frames, counts, saying(item), at);
        }
        _ => return Err(Stop::BadSyntax),
    }
}

// An object in a constant slot.
fn hold_object(frames: Stack<Frame>, counts: Counts, event: Event) -> Result<Turn, Stop>
    ensures { Turns result (object_constant (event_in event) frames counts) }
{
    let (contents, frames) = pop_slot(frames)?;
    let Contents::Undecided(label) = contents else {
        return Err(Stop::BadSyntax);
    };
    let at = At::Behind(AtEnd::Member {
        item: slot_item(label, SlotForm::Constant),
        path: false,
    });
    mark(frames, counts, event, at)
}

// An object in an assignable slot or a parent.
fn hold_data_object(frames: Stack<Frame>, counts: Counts, event: Event) -> Result<Turn, Stop>
    ensures { Turns result (object_datum (event_in event) frames counts) }
{
    let (contents, frames) = pop_slot(frames)?;
    match contents {
        Contents::Assigned(label) => {
            let form = SlotForm::Assignable {
                setter: label.setter,
            };
            let at = At::Behind(AtEnd::Member {
                item: slot_item(label, form),
                path: false,
            });
            return mark(frames, counts, event, at);
        }
        Contents::Parental(label) => {
            let at = At::Behind(AtEnd::Member {
                item: slot_item(label, SlotForm::Parent),
                path: false,
            });
            return mark(frames, counts, event, at);
        }
        _ => return Err(Stop::BadSyntax),
    }
}

// The parenthesis with which an object or a method opens.
fn opening_item(spot: Spot) -> Event
    ensures { event_in result ≡ opening_item spot }
{
    Event {
        says: Some(Item::Opened(spot)),
        ..opening()
    }
}

// The same, and the place at fault where a bar must come next.
fn opened_event(spot: Spot, inner: &Scope, wanted: usize, fault: Spot) -> Event
    ensures { event_in result ≡ opened_event spot inner.now wanted fault }
{
    let next = if inner.arguments() == wanted {
        None
    } else {
        Some(fault)
    };
    Event {
        next,
        ..opening_item(spot)
    }
}

// A parenthesis opens what may be a method.
fn open_paren(frames: Stack<Frame>, counts: Counts, inner: Scope, spot: Spot) -> Result<Turn, Stop>
    ensures { Turns result (paren_turn spot inner frames counts) }
{
    let (contents, frames) = pop_slot(frames)?;
    match contents {
        Contents::Undecided(label) => {
            let event = opened_event(spot, &inner, 0, label.spot);
            return within(
                counts,
                event,
                At::Contents(AtContents::Opened(spot), inner),
                Frame::Slot(contents),
                frames,
            );
        }
        Contents::Coded(heading) => {
            let event = opened_event(spot, &inner, heading.wanted, heading.spot);
            return within(
                counts,
                event,
                At::Contents(AtContents::Opened(spot), inner),
                Frame::Slot(contents),
                frames,
            );
        }
        _ => return Err(Stop::BadSyntax),
    }
}

// Where the contents of a slot are wanted that may be a method.
pub fn take_contents(
    inner: Scope,
    frames: Stack<Frame>,
    counts: Counts,
    symbol: Symbol,
    spot: Spot,
) -> Result<Turn, Stop>
    ensures { Turns result (holding_turn inner frames counts symbol spot) }
{
    match symbol {
        Symbol::Integer(integer) => return hold(frames, counts, Item::Integer(integer), false),
        Symbol::Text { start, end } => {
            return hold(frames, counts, Item::Text { start, end }, false);
        }
        Symbol::Name { name, .. } => {
            return hold(frames, counts, Item::Root { name, spot }, true);
        }
        Symbol::OpenParen => return open_paren(frames, counts, inner, spot),
        _ => return Err(Stop::BadSyntax),
    }
}

// Where contents are wanted that are no method.
pub fn take_data(
    frames: Stack<Frame>,
    counts: Counts,
    symbol: Symbol,
    spot: Spot,
) -> Result<Turn, Stop>
    ensures { Turns result (data_wanted_turn frames counts symbol spot) }
{
    match symbol {
        Symbol::Integer(integer) => {
            return hold_data(frames, counts, Item::Integer(integer), false);
        }
        Symbol::Text { start, end } => {
            return hold_data(frames, counts, Item::Text { start, end }, false);
        }
        Symbol::Name { name, .. } => {
            return hold_data(frames, counts, Item::Root { name, spot }, true);
        }
        Symbol::OpenParen => {
            return simply(
                counts,
                opening_item(spot),
                At::Data(AtData::Opened(spot)),
                frames,
            );
        }
        _ => return Err(Stop::BadSyntax),
    }
}

// The end of an object without slots.
fn empty_end(paren: Spot) -> Event
    ensures { event_in result ≡ empty_end paren }
{
    Event {
        says: Some(Item::ClosedObject),
        counted: Some(paren),
        ..closing()
    }
}

// The code of a method begins, whose frames these are, with what its slots break.
fn begin_code(
    alloc: Global,
    frames: Stack<Frame>,
    counts: Counts,
    symbol: Symbol,
    spot: Spot,
) -> Result<Turn, Stop>
    ensures { Turns result (code_begun frames counts symbol spot) }
{
    let mut frames = frames;
    frames.push(Frame::Body(Body::Method))?;
    frames.push(Frame::Expression(Expression::Statement { later: false }))?;
    begin(alloc, frames, counts, symbol, spot)
}

fn is_bar(symbol: Symbol) -> bool
    ensures { result ≡ is_bar symbol }
{
    match symbol {
        Symbol::Bar => true,
        _ => false,
    }
}

fn is_close(symbol: Symbol) -> bool
    ensures { result ≡ is_close symbol }
{
    match symbol {
        Symbol::CloseParen => true,
        _ => false,
    }
}

// Behind a parenthesis without bars: an empty object ends, or a method's code begins.
fn take_bare(
    alloc: Global,
    paren: Spot,
    frames: Stack<Frame>,
    counts: Counts,
    symbol: Symbol,
    spot: Spot,
) -> Result<Turn, Stop>
    ensures { Turns result (bare_opened paren frames counts symbol spot) }
{
    if is_close(symbol) {
        return hold_object(frames, counts, empty_end(paren));
    }
    let mut counts = counts;
    counts.enter()?;
    begin_code(alloc, frames, counts, symbol, spot)
}

// Behind the parenthesis of what may be a method.
pub fn take_opened(
    alloc: Global,
    paren: Spot,
    inner: Scope,
    frames: Stack<Frame>,
    counts: Counts,
    symbol: Symbol,
    spot: Spot,
) -> Result<Turn, Stop>
    ensures { Turns result (opened_turn paren inner frames counts symbol spot) }
{
    if is_bar(symbol) {
        return within(
            counts,
            quiet(),
            At::Name(AtName::Slot),
            Frame::Slots(Slots::List(Holder::Bars(paren), inner)),
            frames,
        );
    }
    take_bare(alloc, paren, frames, counts, symbol, spot)
}

// The bar behind the parenthesis of an object.
fn open_object(
    alloc: Global,
    paren: Spot,
    frames: Stack<Frame>,
    counts: Counts,
) -> Result<Turn, Stop>
    ensures { Turns result (simply counts quiet (at.Name name.Slot) (f.Slots (slots.List (list_of.Object paren) (scope holder)) ∷ frames)) }
{
    let scope = Scope::open(alloc, Owner::Holder)?;
    within(
        counts,
        quiet(),
        At::Name(AtName::Slot),
        Frame::Slots(Slots::List(Holder::Object(paren), scope)),
        frames,
    )
}

// Behind the parenthesis of an object.
pub fn take_data_opened(
    alloc: Global,
    paren: Spot,
    frames: Stack<Frame>,
    counts: Counts,
    symbol: Symbol,
) -> Result<Turn, Stop>
    ensures { (spot : Spot) → Turns result (data_opened_turn paren frames counts symbol spot) }
{
    match symbol {
        Symbol::Bar => return open_object(alloc, paren, frames, counts),
        Symbol::CloseParen => return hold_data_object(frames, counts, empty_end(paren)),
        _ => return Err(Stop::BadSyntax),
    }
}

// The end of an object with slots: an argument among them breaks a rule.
fn object_end(paren: Spot, scope: &Scope) -> Event
    ensures { event_in result ≡ object_end paren scope.now }
{
    let broken = if scope.arguments() == 0 {
        None
    } else {
        Some(Breach {
            kind: ReadKind::BadSyntax,
            place: None,
        })
    };
    Event {
        broken,
        ..empty_end(paren)
    }
}

// One of the slots is one that no method has.
fn not_plain(scope: &Scope) -> Option<Breach>
    ensures { listed result ≡ when (not scope.now.plain) (here kind.BadSyntax) }
{
    if scope.is_plain() {
        return None;
    }
    Some(Breach {
        kind: ReadKind::BadSyntax,
        place: None,
    })
}

// At the first sign of its code it is known what the slots of a method break.
fn tell_at_code(counts: Counts, wanted: usize, spot: Spot, scope: &Scope) -> Result<Counts, Stop>
    ensures { Gives result (Some (told (at_code wanted spot scope.now) counts)) }
{
    let mut counts = counts;
    if wanted == 0 {
        counts.tell(misfits(wanted, spot, scope))?;
    }
    counts.tell(not_plain(scope))?;
    counts.tell(scope.late_locals())?;
    Ok(counts)
}

// The code of a method begins behind its slots.
fn take_code(
    alloc: Global,
    scope: Scope,
    frames: Stack<Frame>,
    counts: Counts,
    symbol: Symbol,
    spot: Spot,
) -> Result<Turn, Stop>
    ensures { Turns result (code_turn scope frames counts symbol spot) }
{
    let (contents, frames) = pop_slot(frames)?;
    let mut frames = frames;
    let mut counts = counts;
    counts.enter()?;
    match contents {
        Contents::Undecided(label) => {
            let counts = tell_at_code(counts, 0, label.spot, &scope)?;
            frames.push(Frame::Slot(contents))?;
            return begin_code(alloc, frames, counts, symbol, spot);
        }
        Contents::Coded(heading) => {
            let counts = tell_at_code(counts, heading.wanted, heading.spot, &scope)?;
            frames.push(Frame::Slot(contents))?;
            return begin_code(alloc, frames, counts, symbol, spot);
        }
        _ => return Err(Stop::BadSyntax),
    }
}

// Behind the bars of what may be a method.
pub fn take_shut(
    alloc: Global,
    paren: Spot,
    scope: Scope,
    frames: Stack<Frame>,
    counts: Counts,
    symbol: Symbol,
    spot: Spot,
) -> Result<Turn, Stop>
    ensures { Turns result (shut_turn paren scope frames counts symbol spot) }
{
    if let Symbol::CloseParen = symbol {
        return hold_object(frames, counts, object_end(paren, &scope));
    }
    take_code(alloc, scope, frames, counts, symbol, spot)
}

// Behind the bars of an object.
pub fn take_data_shut(
    paren: Spot,
    scope: Scope,
    frames: Stack<Frame>,
    counts: Counts,
    symbol: Symbol,
) -> Result<Turn, Stop>
    ensures { (spot : Spot) → Turns result (data_shut_turn paren scope frames counts symbol spot) }
{
    let Symbol::CloseParen = symbol else {
        return Err(Stop::BadSyntax);
    };
    hold_data_object(frames, counts, object_end(paren, &scope))
}
