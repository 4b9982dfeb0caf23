// Reads a sign at the head of a slot: where a slot is wanted, and behind a part of its name.
ghost use Rattle.std.specs.Prelude.{◌≡◌, ◌∷◌, [], IfOk, OnOk};
ghost use Rattle.self_grammar.specs.declared.pieces.Item.TheVariants as items;
ghost use Rattle.self_grammar.specs.declared.signs.Spot.{Spot as Place};
ghost use Rattle.self_grammar.specs.Counts.{quiet};
ghost use Rattle.self_grammar.specs.Scopes.{with_argument, with_local};
ghost use Rattle.reader_states.specs.declared.frames.At.TheVariants as at;
ghost use Rattle.reader_states.specs.declared.frames.AtArgument.TheVariants as argued;
ghost use Rattle.reader_states.specs.declared.frames.AtContents.TheVariants as held;
ghost use Rattle.reader_states.specs.declared.frames.AtData.TheVariants as data_at;
ghost use Rattle.reader_states.specs.declared.frames.AtName.TheVariants as name_at;
ghost use Rattle.reader_states.specs.declared.frames.Contents.TheVariants as contents;
ghost use Rattle.reader_states.specs.declared.frames.Frame.TheVariants as f;
ghost use Rattle.reader_states.specs.declared.frames.Slots.TheVariants as slots;
ghost use Rattle.reader_states.specs.Turns.{event_in, Turns, simply, if_free, argument_event};
ghost use Rattle.slot_reader.specs.SlotTurns.{argument_at, arrow_turn, bare_turn, coded_in, coded_turn, equals_in, equals_turn, first_argument, head_argument, if_equals, keyword_argued_turn, keyword_at, keyword_event, keyword_named_turn, keyword_wanting_turn, lone_event, longer, named_at, named_role, named_turn, operator_argued_turn, operator_heading, operator_named_turn, part_event, slot_turn, star_turn, starred_turn, with_words, words_event};

use crate::ends::{end_at_bar, end_at_end, end_slot};
use reader_states::{
    At, AtArgument, AtContents, AtData, AtEnd, AtName, Contents, Counts, Event, Frame, Heading,
    Holder, Label, Owner, Scope, Slots, Stack, Stop, Turn, argument_in, duplicate, name_in,
    pop_list, pop_slots, quiet, setter_in, simply, slot_item, too_many_arguments, within,
};
use self_grammar::{Item, Limits, Reserved, Role, SlotForm, Spot, Symbol, Words};
use std::alloc::{AllocError, Global};

// A list gets a slot whose name in keywords isn't known yet,
fn keyword_in(limits: Limits, scope: &mut Scope, spot: Spot) -> Result<Event, AllocError>
    ensures list { OnOk result (scope.new ≡ with_local limits spot scope.old) }
    ensures event { IfOk result (λ event. event_in event ≡ keyword_event limits scope.old spot) }
{
    let broken = scope.too_many_locals(limits);
    scope.add_local(limits, spot)?;
    Ok(Event {
        counted: Some(spot),
        broken,
        ..quiet()
    })
}

// and that name.
fn words_in(scope: &mut Scope, heading: Heading) -> Result<Event, AllocError>
    ensures list { OnOk result (scope.new ≡ with_words heading scope.old) }
    ensures event { IfOk result (λ event. event_in event ≡ words_event heading scope.old) }
{
    let again = scope.add(heading.words)?;
    Ok(Event {
        broken: duplicate(again, heading.spot),
        ..quiet()
    })
}

// The slot of an edit.
fn lone_event(spot: Spot) -> Event
    ensures { event_in result ≡ lone_event spot }
{
    Event {
        counted: Some(spot),
        ..quiet()
    }
}

// One more part of a name that has so many.
fn part_event(limits: Limits, count: usize) -> Event
    ensures { event_in result ≡ part_event limits count }
{
    Event {
        broken: too_many_arguments(limits, count),
        ..quiet()
    }
}

// A name at the begin of a slot.
fn begin_name(
    limits: Limits,
    name: u32,
    spot: Spot,
    place: AtName,
    frames: Stack<Frame>,
    counts: Counts,
) -> Result<Turn, Stop>
    ensures { Turns result (named_at limits name spot (at.Name place) frames counts) }
{
    let (slots, frames) = pop_slots(frames)?;
    match slots {
        Slots::List(holder, scope) => {
            let mut scope = scope;
            let event = name_in(limits, &mut scope, name, spot)?;
            return within(
                counts,
                event,
                At::Name(place),
                Frame::Slots(Slots::List(holder, scope)),
                frames,
            );
        }
        Slots::Edit => {
            return within(
                counts,
                lone_event(spot),
                At::Name(place),
                Frame::Slots(Slots::Edit),
                frames,
            );
        }
    }
}

// A keyword at the begin of a slot.
fn begin_keyword(
    limits: Limits,
    spot: Spot,
    place: AtName,
    frames: Stack<Frame>,
    counts: Counts,
) -> Result<Turn, Stop>
    ensures { Turns result (keyword_at limits spot (at.Name place) frames counts) }
{
    let (slots, frames) = pop_slots(frames)?;
    match slots {
        Slots::List(holder, scope) => {
            let mut scope = scope;
            let event = keyword_in(limits, &mut scope, spot)?;
            return within(
                counts,
                event,
                At::Name(place),
                Frame::Slots(Slots::List(holder, scope)),
                frames,
            );
        }
        Slots::Edit => {
            return within(
                counts,
                lone_event(spot),
                At::Name(place),
                Frame::Slots(Slots::Edit),
                frames,
            );
        }
    }
}

// An argument.
fn add_argument(
    limits: Limits,
    name: u32,
    spot: Spot,
    frames: Stack<Frame>,
    counts: Counts,
) -> Result<Turn, Stop>
    ensures { Turns result (argument_at limits name spot frames counts) }
{
    let (holder, scope, frames) = pop_list(frames)?;
    if let Holder::World = holder {
        return Err(Stop::BadSyntax);
    }
    let mut scope = scope;
    let event = argument_in(limits, &mut scope, Item::Argument(name), name, spot)?;
    within(
        counts,
        event,
        At::Behind(AtEnd::Argument),
        Frame::Slots(Slots::List(holder, scope)),
        frames,
    )
}

// A name that is not reserved begins a slot,
fn begin_free(
    limits: Limits,
    label: Label,
    reserved: Reserved,
    frames: Stack<Frame>,
    counts: Counts,
) -> Result<Turn, Stop>
    ensures { Turns result (if_free reserved (named_at limits label.name label.spot (at.Name (name_at.Named label)) frames counts)) }
{
    let Reserved::Free = reserved else {
        return Err(Stop::BadSyntax);
    };
    begin_name(
        limits,
        label.name,
        label.spot,
        AtName::Named(label),
        frames,
        counts,
    )
}

// or is that of an argument.
fn add_free(
    limits: Limits,
    name: u32,
    reserved: Reserved,
    spot: Spot,
    frames: Stack<Frame>,
    counts: Counts,
) -> Result<Turn, Stop>
    ensures { Turns result (if_free reserved (argument_at limits name spot frames counts)) }
{
    let Reserved::Free = reserved else {
        return Err(Stop::BadSyntax);
    };
    add_argument(limits, name, spot, frames, counts)
}

/// Reads a sign where a slot is wanted.
pub fn begin_slot(
    alloc: Global,
    limits: Limits,
    frames: Stack<Frame>,
    counts: Counts,
    symbol: Symbol,
    spot: Spot,
) -> Result<Turn, Stop>
    ensures { Turns result (slot_turn limits frames counts symbol spot) }
{
    match symbol {
        Symbol::Name {
            name,
            setter,
            reserved,
        } => {
            let label = Label { name, setter, spot };
            return begin_free(limits, label, reserved, frames, counts);
        }
        Symbol::Argument { name, reserved, .. } => {
            return add_free(limits, name, reserved, spot, frames, counts);
        }
        Symbol::Operator { name, .. } => {
            let at = AtName::Operator {
                operator: name,
                spot,
            };
            return begin_name(limits, name, spot, at, frames, counts);
        }
        Symbol::Keyword(name) => {
            let heading = Heading {
                words: Words::One(name),
                wanted: 1,
                spot,
            };
            return begin_keyword(limits, spot, AtName::Keyword(heading), frames, counts);
        }
        Symbol::Bar => return end_at_bar(frames, counts),
        Symbol::End => return end_at_end(alloc, frames, counts),
        _ => return Err(Stop::BadSyntax),
    }
}

// '=' behind a name: of an edit, which surely holds a method,
fn hold_lone(
    alloc: Global,
    label: Label,
    frames: Stack<Frame>,
    counts: Counts,
) -> Result<Turn, Stop>
    ensures { Turns result (equals_in label slots.Edit frames counts) }
{
    let heading = Heading {
        words: Words::One(label.name),
        wanted: 0,
        spot: label.spot,
    };
    let mut frames = frames;
    frames.push(Frame::Slots(Slots::Edit))?;
    let inner = Scope::open(alloc, Owner::Either)?;
    hold_method(heading, inner, quiet(), frames, counts)
}

// and of a list.
fn hold_listed(
    alloc: Global,
    label: Label,
    holder: Holder,
    scope: Scope,
    frames: Stack<Frame>,
    counts: Counts,
) -> Result<Turn, Stop>
    ensures { Turns result (equals_in label (slots.List holder scope) frames counts) }
{
    let mut frames = frames;
    frames.push(Frame::Slots(Slots::List(holder, scope)))?;
    let at = At::Contents(AtContents::Wanted, Scope::open(alloc, Owner::Either)?);
    within(
        counts,
        quiet(),
        at,
        Frame::Slot(Contents::Undecided(label)),
        frames,
    )
}

fn hold(alloc: Global, label: Label, frames: Stack<Frame>, counts: Counts) -> Result<Turn, Stop>
    ensures { Turns result (equals_turn label frames counts) }
{
    let (slots, frames) = pop_slots(frames)?;
    match slots {
        Slots::List(holder, scope) => {
            return hold_listed(alloc, label, holder, scope, frames, counts);
        }
        Slots::Edit => return hold_lone(alloc, label, frames, counts),
    }
}

// The contents of an assignable slot are wanted.
fn want_datum(
    label: Label,
    event: Event,
    frames: Stack<Frame>,
    counts: Counts,
) -> Result<Turn, Stop>
    ensures { Turns result (simply counts (event_in event) (at.Data data_at.Wanted) (f.Slot (contents.Assigned label) ∷ frames)) }
{
    within(
        counts,
        event,
        At::Data(AtData::Wanted),
        Frame::Slot(Contents::Assigned(label)),
        frames,
    )
}

// '<-' behind a name.
fn assign(label: Label, frames: Stack<Frame>, counts: Counts) -> Result<Turn, Stop>
    ensures { Turns result (arrow_turn label frames counts) }
{
    let (holder, scope, frames) = pop_list(frames)?;
    let mut scope = scope;
    let broken = setter_in(&mut scope, label)?;
    let mut frames = frames;
    frames.push(Frame::Slots(Slots::List(holder, scope)))?;
    want_datum(label, Event { broken, ..quiet() }, frames, counts)
}

// '*' behind a name.
fn star(label: Label, frames: Stack<Frame>, counts: Counts) -> Result<Turn, Stop>
    ensures { Turns result (star_turn label frames counts) }
{
    let (holder, scope, frames) = pop_list(frames)?;
    within(
        counts,
        quiet(),
        At::Name(AtName::Starred(label)),
        Frame::Slots(Slots::List(holder, scope)),
        frames,
    )
}

// An operator behind a name.
fn decide(
    alloc: Global,
    label: Label,
    frames: Stack<Frame>,
    counts: Counts,
    role: Role,
) -> Result<Turn, Stop>
    ensures { Turns result (named_role label frames counts role) }
{
    match role {
        Role::Equals => return hold(alloc, label, frames, counts),
        Role::Arrow => return assign(label, frames, counts),
        Role::Star => return star(label, frames, counts),
        Role::Other => return Err(Stop::BadSyntax),
    }
}

// A slot that holds nil ends before the sign: its list gets its assignment slot.
fn end_bare(
    alloc: Global,
    label: Label,
    frames: Stack<Frame>,
    counts: Counts,
    symbol: Symbol,
) -> Result<Turn, Stop>
    ensures { Turns result (bare_turn label frames counts symbol) }
{
    let (holder, scope, frames) = pop_list(frames)?;
    let mut scope = scope;
    let mut counts = counts;
    counts.tell(setter_in(&mut scope, label)?)?;
    let mut frames = frames;
    frames.push(Frame::Slots(Slots::List(holder, scope)))?;
    let form = SlotForm::Bare {
        setter: label.setter,
    };
    end_slot(alloc, frames, counts, Some(slot_item(label, form)), symbol)
}

/// Reads a sign behind a name.
pub fn follow_name(
    alloc: Global,
    label: Label,
    frames: Stack<Frame>,
    counts: Counts,
    symbol: Symbol,
) -> Result<Turn, Stop>
    ensures { (spot : Place) → Turns result (named_turn label frames counts symbol spot) }
{
    match symbol {
        Symbol::Operator { role, .. } => return decide(alloc, label, frames, counts, role),
        Symbol::Period => return end_bare(alloc, label, frames, counts, Symbol::Period),
        Symbol::Bar => return end_bare(alloc, label, frames, counts, Symbol::Bar),
        Symbol::End => return end_bare(alloc, label, frames, counts, Symbol::End),
        _ => return Err(Stop::BadSyntax),
    }
}

// '=' behind a name and '*'.
fn hold_parent(label: Label, frames: Stack<Frame>, counts: Counts, role: Role) -> Result<Turn, Stop>
    ensures { Turns result (if_equals role (simply counts quiet (at.Data data_at.Wanted) (f.Slot (contents.Parental label) ∷ frames))) }
{
    let Role::Equals = role else {
        return Err(Stop::BadSyntax);
    };
    within(
        counts,
        quiet(),
        At::Data(AtData::Wanted),
        Frame::Slot(Contents::Parental(label)),
        frames,
    )
}

/// Reads a sign behind a name and '*'.
pub fn follow_star(
    label: Label,
    frames: Stack<Frame>,
    counts: Counts,
    symbol: Symbol,
) -> Result<Turn, Stop>
    ensures { (spot : Place) → Turns result (starred_turn label frames counts symbol spot) }
{
    let Symbol::Operator { role, .. } = symbol else {
        return Err(Stop::BadSyntax);
    };
    hold_parent(label, frames, counts, role)
}

// '=' behind the name of a method slot: what it holds is wanted, with the arguments named so far.
fn hold_method(
    heading: Heading,
    inner: Scope,
    event: Event,
    frames: Stack<Frame>,
    counts: Counts,
) -> Result<Turn, Stop>
    ensures { Turns result (simply counts (event_in event) (at.Contents held.Wanted inner) (f.Slot (contents.Coded heading) ∷ frames)) }
{
    within(
        counts,
        event,
        At::Contents(AtContents::Wanted, inner),
        Frame::Slot(Contents::Coded(heading)),
        frames,
    )
}

// The name of a method slot that is an operator, which begins there.
fn operator_heading(operator: u32, begin: Spot) -> Heading
    ensures { result ≡ operator_heading operator begin }
{
    Heading {
        words: Words::One(operator),
        wanted: 1,
        spot: begin,
    }
}

// '=' behind an operator, and its argument or none.
fn hold_operator(
    operator: u32,
    begin: Spot,
    inner: Scope,
    frames: Stack<Frame>,
    counts: Counts,
    role: Role,
) -> Result<Turn, Stop>
    ensures { Turns result (if_equals role (simply counts quiet (at.Contents held.Wanted inner) (f.Slot (contents.Coded (operator_heading operator begin)) ∷ frames))) }
{
    let Role::Equals = role else {
        return Err(Stop::BadSyntax);
    };
    let heading = operator_heading(operator, begin);
    hold_method(heading, inner, quiet(), frames, counts)
}

// The argument of an operator.
fn name_operand(
    limits: Limits,
    operator: u32,
    begin: Spot,
    inner: Scope,
    frames: Stack<Frame>,
    counts: Counts,
    name: u32,
    reserved: Reserved,
    spot: Spot,
) -> Result<Turn, Stop>
    ensures { Turns result (if_free reserved (simply counts (argument_event limits inner (items.Named name) name spot) (at.Argued (argued.Operator operator begin) (with_argument (name ∷ []) inner)) frames)) }
{
    let Reserved::Free = reserved else {
        return Err(Stop::BadSyntax);
    };
    let mut inner = inner;
    let event = argument_in(limits, &mut inner, Item::Named(name), name, spot)?;
    let at = AtArgument::Operator {
        operator,
        spot: begin,
    };
    simply(counts, event, At::Argued(at, inner), frames)
}

/// Reads a sign behind an operator at the begin of a slot.
pub fn follow_operator(
    alloc: Global,
    limits: Limits,
    operator: u32,
    begin: Spot,
    frames: Stack<Frame>,
    counts: Counts,
    symbol: Symbol,
    spot: Spot,
) -> Result<Turn, Stop>
    ensures { Turns result (operator_named_turn limits operator begin frames counts symbol spot) }
{
    match symbol {
        Symbol::Name { name, reserved, .. } => {
            let inner = Scope::open(alloc, Owner::Activation)?;
            return name_operand(
                limits, operator, begin, inner, frames, counts, name, reserved, spot,
            );
        }
        Symbol::Operator { role, .. } => {
            let inner = Scope::open(alloc, Owner::Activation)?;
            return hold_operator(operator, begin, inner, frames, counts, role);
        }
        _ => return Err(Stop::BadSyntax),
    }
}

/// Reads a sign behind an operator and its argument.
pub fn follow_operand(
    operator: u32,
    begin: Spot,
    inner: Scope,
    frames: Stack<Frame>,
    counts: Counts,
    symbol: Symbol,
) -> Result<Turn, Stop>
    ensures { (spot : Place) → Turns result (operator_argued_turn operator begin inner frames counts symbol spot) }
{
    let Symbol::Operator { role, .. } = symbol else {
        return Err(Stop::BadSyntax);
    };
    hold_operator(operator, begin, inner, frames, counts, role)
}

// The name of a method slot with one part more.
fn longer(heading: Heading, name: u32) -> Heading
    ensures { result ≡ longer heading name }
{
    let words = heading.words.followed_by(name);
    Heading {
        words,
        wanted: words.count(),
        spot: heading.spot,
    }
}

// '=' behind keywords: in a list,
fn hold_in_list(
    heading: Heading,
    inner: Scope,
    holder: Holder,
    scope: Scope,
    frames: Stack<Frame>,
    counts: Counts,
) -> Result<Turn, Stop>
    ensures { Turns result (coded_in heading inner (slots.List holder scope) frames counts) }
{
    let mut scope = scope;
    let mut frames = frames;
    let event = words_in(&mut scope, heading)?;
    frames.push(Frame::Slots(Slots::List(holder, scope)))?;
    hold_method(heading, inner, event, frames, counts)
}

// and in an edit.
fn hold_in_edit(
    heading: Heading,
    inner: Scope,
    frames: Stack<Frame>,
    counts: Counts,
) -> Result<Turn, Stop>
    ensures { Turns result (coded_in heading inner slots.Edit frames counts) }
{
    let mut frames = frames;
    frames.push(Frame::Slots(Slots::Edit))?;
    hold_method(heading, inner, quiet(), frames, counts)
}

fn hold_coded(
    heading: Heading,
    inner: Scope,
    frames: Stack<Frame>,
    counts: Counts,
) -> Result<Turn, Stop>
    ensures { Turns result (coded_turn heading inner frames counts) }
{
    let (slots, frames) = pop_slots(frames)?;
    match slots {
        Slots::List(holder, scope) => {
            return hold_in_list(heading, inner, holder, scope, frames, counts);
        }
        Slots::Edit => return hold_in_edit(heading, inner, frames, counts),
    }
}

// An operator behind keywords.
fn hold_keywords(
    heading: Heading,
    inner: Scope,
    frames: Stack<Frame>,
    counts: Counts,
    role: Role,
) -> Result<Turn, Stop>
    ensures { Turns result (if_equals role (coded_turn heading inner frames counts)) }
{
    let Role::Equals = role else {
        return Err(Stop::BadSyntax);
    };
    hold_coded(heading, inner, frames, counts)
}

// An argument behind a keyword,
fn name_argument(
    limits: Limits,
    heading: Heading,
    inner: Scope,
    frames: Stack<Frame>,
    counts: Counts,
    name: u32,
    spot: Spot,
) -> Result<Turn, Stop>
    ensures { Turns result (head_argument limits heading inner frames counts name spot) }
{
    let mut inner = inner;
    let event = argument_in(limits, &mut inner, Item::Named(name), name, spot)?;
    simply(
        counts,
        event,
        At::Argued(AtArgument::Keyword(heading), inner),
        frames,
    )
}

// behind the first one, where no other stands between,
fn name_first(
    alloc: Global,
    limits: Limits,
    heading: Heading,
    frames: Stack<Frame>,
    counts: Counts,
    name: u32,
    spot: Spot,
) -> Result<Turn, Stop>
    ensures { Turns result (first_argument limits heading heading.words frames counts name spot) }
{
    let Words::One(_) = heading.words else {
        return Err(Stop::BadSyntax);
    };
    let inner = Scope::open(alloc, Owner::Activation)?;
    name_argument(limits, heading, inner, frames, counts, name, spot)
}

// and both where the name is not reserved.
fn name_argument_free(
    limits: Limits,
    heading: Heading,
    inner: Scope,
    frames: Stack<Frame>,
    counts: Counts,
    name: u32,
    reserved: Reserved,
    spot: Spot,
) -> Result<Turn, Stop>
    ensures { Turns result (if_free reserved (head_argument limits heading inner frames counts name spot)) }
{
    let Reserved::Free = reserved else {
        return Err(Stop::BadSyntax);
    };
    name_argument(limits, heading, inner, frames, counts, name, spot)
}

fn name_first_free(
    alloc: Global,
    limits: Limits,
    heading: Heading,
    frames: Stack<Frame>,
    counts: Counts,
    name: u32,
    reserved: Reserved,
    spot: Spot,
) -> Result<Turn, Stop>
    ensures { Turns result (if_free reserved (first_argument limits heading heading.words frames counts name spot)) }
{
    let Reserved::Free = reserved else {
        return Err(Stop::BadSyntax);
    };
    name_first(alloc, limits, heading, frames, counts, name, spot)
}

/// Reads a sign behind keywords at the begin of a slot.
pub fn follow_keywords(
    alloc: Global,
    limits: Limits,
    heading: Heading,
    frames: Stack<Frame>,
    counts: Counts,
    symbol: Symbol,
    spot: Spot,
) -> Result<Turn, Stop>
    ensures { Turns result (keyword_named_turn limits heading frames counts symbol spot) }
{
    match symbol {
        Symbol::Name { name, reserved, .. } => {
            return name_first_free(alloc, limits, heading, frames, counts, name, reserved, spot);
        }
        Symbol::CapitalKeyword { name, .. } => {
            let event = part_event(limits, heading.wanted);
            return simply(
                counts,
                event,
                At::Name(AtName::Keyword(longer(heading, name))),
                frames,
            );
        }
        Symbol::Operator { role, .. } => {
            let inner = Scope::open(alloc, Owner::Activation)?;
            return hold_keywords(heading, inner, frames, counts, role);
        }
        _ => return Err(Stop::BadSyntax),
    }
}

/// Reads a sign behind a keyword's argument.
pub fn follow_keyword_argument(
    limits: Limits,
    heading: Heading,
    inner: Scope,
    frames: Stack<Frame>,
    counts: Counts,
    symbol: Symbol,
) -> Result<Turn, Stop>
    ensures { (spot : Place) → Turns result (keyword_argued_turn limits heading inner frames counts symbol spot) }
{
    match symbol {
        Symbol::CapitalKeyword { name, .. } => {
            let event = part_event(limits, heading.wanted);
            let at = AtArgument::Wanting(longer(heading, name));
            return simply(counts, event, At::Argued(at, inner), frames);
        }
        Symbol::Operator { role, .. } => {
            return hold_keywords(heading, inner, frames, counts, role);
        }
        _ => return Err(Stop::BadSyntax),
    }
}

/// Reads a sign where the argument of a capital keyword is wanted.
pub fn want_keyword_argument(
    limits: Limits,
    heading: Heading,
    inner: Scope,
    frames: Stack<Frame>,
    counts: Counts,
    symbol: Symbol,
    spot: Spot,
) -> Result<Turn, Stop>
    ensures { Turns result (keyword_wanting_turn limits heading inner frames counts symbol spot) }
{
    let Symbol::Name { name, reserved, .. } = symbol else {
        return Err(Stop::BadSyntax);
    };
    name_argument_free(limits, heading, inner, frames, counts, name, reserved, spot)
}
