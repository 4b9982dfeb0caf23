// Reads a sign in the slots of a block: where a slot is wanted, behind its name, where its contents are wanted, and behind
// the slot.
ghost use Rattle.reader_states.specs.Turns.{Turns};
ghost use Rattle.contents_reader.specs.LocalTurns.{named_at, argument_at, code_begins, closed, local_turn, done_turn, arrow_turn, role_turn, bare_turn, local_named_turn, contents_turn, local_equals_turn, local_arrow_turn, local_done_turn};

use reader_states::{
    At, AtCode, AtLocal, Body, Counts, Event, Expression, Frame, Label, Stack, Stop, Turn,
    argument_in, name_in, pop_body, pop_locals, quiet, saying, setter_in, simply, slot_item,
    within,
};
use self_grammar::{Item, Limits, Reserved, Role, SlotForm, Spot, Symbol};

// The slots get a name,
fn named_at(
    limits: Limits,
    name: u32,
    setter: u32,
    spot: Spot,
    frames: Stack<Frame>,
    counts: Counts,
) -> Result<Turn, Stop>
    ensures { Turns result (named_at limits name setter spot frames counts) }
{
    let (scope, frames) = pop_locals(frames)?;
    let mut scope = scope;
    let event = name_in(limits, &mut scope, name, spot)?;
    let at = AtLocal::Named(Label { name, setter, spot });
    within(counts, event, At::Local(at), Frame::Locals(scope), frames)
}

// or an argument.
fn argument_at(
    limits: Limits,
    name: u32,
    spot: Spot,
    frames: Stack<Frame>,
    counts: Counts,
) -> Result<Turn, Stop>
    ensures { Turns result (argument_at limits name spot frames counts) }
{
    let (scope, frames) = pop_locals(frames)?;
    let mut scope = scope;
    let event = argument_in(limits, &mut scope, Item::Argument(name), name, spot)?;
    let at = AtLocal::Done {
        item: None,
        path: false,
    };
    within(counts, event, At::Local(at), Frame::Locals(scope), frames)
}

// The code of a block begins, behind its slots.
fn begin_code(frames: Stack<Frame>, counts: Counts) -> Result<Turn, Stop>
    ensures { Turns result (code_begins frames counts) }
{
    let (body, frames) = pop_body(frames)?;
    let Body::Block { barred: false } = body else {
        return Err(Stop::BadSyntax);
    };
    let mut frames = frames;
    frames.push(Frame::Body(Body::Block { barred: true }))?;
    within(
        counts,
        quiet(),
        At::Code(AtCode::Wanting),
        Frame::Expression(Expression::Statement { later: false }),
        frames,
    )
}

// The bar behind the slots of a block.
fn close(frames: Stack<Frame>, counts: Counts) -> Result<Turn, Stop>
    ensures { Turns result (closed frames counts) }
{
    let (_, frames) = pop_locals(frames)?;
    begin_code(frames, counts)
}

// Where a slot is wanted.
pub fn at_local(
    limits: Limits,
    frames: Stack<Frame>,
    counts: Counts,
    symbol: Symbol,
    spot: Spot,
) -> Result<Turn, Stop>
    ensures { Turns result (local_turn limits frames counts symbol spot) }
{
    match symbol {
        Symbol::Name {
            name,
            setter,
            reserved: Reserved::Free,
        } => return named_at(limits, name, setter, spot, frames, counts),
        Symbol::Argument {
            name,
            setter: _,
            reserved: Reserved::Free,
        } => return argument_at(limits, name, spot, frames, counts),
        Symbol::Bar => return close(frames, counts),
        _ => return Err(Stop::BadSyntax),
    }
}

// A slot ends, with this item.
fn end_local(
    item: Option<Item>,
    frames: Stack<Frame>,
    counts: Counts,
    symbol: Symbol,
) -> Result<Turn, Stop>
    ensures { Turns result (done_turn item frames counts symbol) }
{
    let mut counts = counts;
    match symbol {
        Symbol::Period => {
            counts.place(item)?;
            return simply(counts, quiet(), At::Local(AtLocal::Slot), frames);
        }
        Symbol::Bar => {
            counts.place(item)?;
            return close(frames, counts);
        }
        _ => return Err(Stop::BadSyntax),
    }
}

// `<-`
fn arrow(label: Label, frames: Stack<Frame>, counts: Counts) -> Result<Turn, Stop>
    ensures { Turns result (arrow_turn label frames counts) }
{
    let (scope, frames) = pop_locals(frames)?;
    let mut scope = scope;
    let broken = setter_in(&mut scope, label)?;
    let event = Event { broken, ..quiet() };
    within(
        counts,
        event,
        At::Local(AtLocal::Arrow(label)),
        Frame::Locals(scope),
        frames,
    )
}

fn role(label: Label, role: Role, frames: Stack<Frame>, counts: Counts) -> Result<Turn, Stop>
    ensures { Turns result (role_turn label role frames counts) }
{
    match role {
        Role::Equals => return simply(counts, quiet(), At::Local(AtLocal::Equals(label)), frames),
        Role::Arrow => return arrow(label, frames, counts),
        Role::Star => return Err(Stop::BadSyntax),
        Role::Other => return Err(Stop::BadSyntax),
    }
}

// A slot that is a name alone ends.
fn bare(label: Label, frames: Stack<Frame>, counts: Counts, symbol: Symbol) -> Result<Turn, Stop>
    ensures { Turns result (bare_turn label frames counts symbol) }
{
    let (scope, frames) = pop_locals(frames)?;
    let mut scope = scope;
    let mut frames = frames;
    let mut counts = counts;
    counts.tell(setter_in(&mut scope, label)?)?;
    frames.push(Frame::Locals(scope))?;
    let form = SlotForm::Bare {
        setter: label.setter,
    };
    end_local(Some(slot_item(label, form)), frames, counts, symbol)
}

// Behind the name of a slot.
pub fn local_named(
    label: Label,
    frames: Stack<Frame>,
    counts: Counts,
    symbol: Symbol,
) -> Result<Turn, Stop>
    ensures { Turns result (local_named_turn label frames counts symbol) }
{
    match symbol {
        Symbol::Operator { name: _, role: r } => return role(label, r, frames, counts),
        Symbol::Period => return bare(label, frames, counts, symbol),
        Symbol::Bar => return bare(label, frames, counts, symbol),
        _ => return Err(Stop::BadSyntax),
    }
}

// The contents of a slot, which ends with this item.
fn contents(
    item: Item,
    frames: Stack<Frame>,
    counts: Counts,
    symbol: Symbol,
    spot: Spot,
) -> Result<Turn, Stop>
    ensures { Turns result (contents_turn item frames counts symbol spot) }
{
    let item = Some(item);
    match symbol {
        Symbol::Integer(int) => {
            let at = At::Local(AtLocal::Done { item, path: false });
            return simply(counts, saying(Item::Integer(int)), at, frames);
        }
        Symbol::Text { start, end } => {
            let at = At::Local(AtLocal::Done { item, path: false });
            return simply(counts, saying(Item::Text { start, end }), at, frames);
        }
        Symbol::Name {
            name,
            setter: _,
            reserved: _,
        } => {
            let at = At::Local(AtLocal::Done { item, path: true });
            return simply(counts, saying(Item::Root { name, spot }), at, frames);
        }
        _ => return Err(Stop::BadSyntax),
    }
}

// Behind the `=` of a slot.
pub fn local_equals(
    label: Label,
    frames: Stack<Frame>,
    counts: Counts,
    symbol: Symbol,
    spot: Spot,
) -> Result<Turn, Stop>
    ensures { Turns result (local_equals_turn label frames counts symbol spot) }
{
    contents(
        slot_item(label, SlotForm::Constant),
        frames,
        counts,
        symbol,
        spot,
    )
}

// Behind the `<-` of a slot.
pub fn local_arrow(
    label: Label,
    frames: Stack<Frame>,
    counts: Counts,
    symbol: Symbol,
    spot: Spot,
) -> Result<Turn, Stop>
    ensures { Turns result (local_arrow_turn label frames counts symbol spot) }
{
    let form = SlotForm::Assignable {
        setter: label.setter,
    };
    contents(slot_item(label, form), frames, counts, symbol, spot)
}

// Behind a slot, where a path may go on.
pub fn local_done(
    item: Option<Item>,
    path: bool,
    frames: Stack<Frame>,
    counts: Counts,
    symbol: Symbol,
    spot: Spot,
) -> Result<Turn, Stop>
    ensures { Turns result (local_done_turn item path frames counts symbol spot) }
{
    match symbol {
        Symbol::Name {
            name,
            setter: _,
            reserved: _,
        } => {
            if !path {
                return Err(Stop::BadSyntax);
            }
            let at = At::Local(AtLocal::Done { item, path: true });
            return simply(counts, saying(Item::Further { name, spot }), at, frames);
        }
        Symbol::Period => return end_local(item, frames, counts, symbol),
        Symbol::Bar => return end_local(item, frames, counts, symbol),
        _ => return Err(Stop::BadSyntax),
    }
}
