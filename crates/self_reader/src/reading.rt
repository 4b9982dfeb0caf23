// The reader: it takes one sign after the other.
ghost use Rattle.std.specs.Prelude.{◌≡◌, ◌++◌, OnOk, IfOk};
ghost use Rattle.self_grammar.specs.Refusal.{kind_of, bad_syntax};
ghost use Rattle.self_grammar.specs.Spelling.{at_first};
ghost use Rattle.reader_states.specs.Turns.{turn_in};
ghost use Rattle.self_reader.specs.Reading.{missing_bar, settled, fed, said_by, said_at, all_said, Answers, before_list, before_world};
ghost use Rattle.self_grammar.specs.Grammar.{World, Edit};
ghost use Rattle.self_grammar.specs.Spelling.{world, edit, items_of};
ghost use Rattle.self_grammar.specs.Refusal.{IsText};
ghost use Rattle.self_reader.specs.Texts.{IsWhole, AreRead, IsAnswered, IsRightlyRefused};
ghost use Rattle.self_reader.specs.Turning.{turn};

use crate::settling::settle;
use crate::stops::ReadStop;
use crate::turning::turn;
use reader_states::{
    At, AtName, Counts, Frame, Holder, Owner, Scope, Slots, Stack, Stop, Tally, Turn,
};
use self_grammar::{Item, Limits, ReadKind, ReadRefusal, Sign, Spot, Symbol};
use self_tokens::Fault;
use std::alloc::{AllocError, Global};

// Where the next sign stands, what is counted before it, and the place at fault where it has to be a bar and isn't.
#[derive(Drop)]
pub(crate) struct Reader {
    pub at: At,
    pub frames: Stack<Frame>,
    pub counts: Counts,
    pub wants: Option<Spot>,
}

fn kind_of(fault: Fault) -> ReadKind
    ensures { result ≡ kind_of fault }
{
    match fault {
        Fault::BadToken => ReadKind::BadToken,
        Fault::BadEscape => ReadKind::BadEscape,
        Fault::IntTooWide => ReadKind::IntTooWide,
    }
}

fn bad_syntax(spot: Spot) -> ReadRefusal
    ensures { result ≡ bad_syntax spot }
{
    ReadRefusal {
        kind: ReadKind::BadSyntax,
        spot,
    }
}

// The place at fault where a bar has to come and another sign does.
fn missing_bar(wants: Option<Spot>, symbol: Symbol) -> Option<Spot>
    ensures { result ≡ missing_bar wants symbol }
{
    let Some(spot) = wants else {
        return None;
    };
    match symbol {
        Symbol::Bar => None,
        _ => Some(spot),
    }
}

fn settle_turn(
    alloc: Global,
    limits: Limits,
    turn: Turn,
    spot: Spot,
    items: &mut Vec<Item>,
) -> Result<Reader, ReadStop>
    ensures reader { Answers (λ r. r) result (settled limits spot (Some (turn_in turn))) }
    ensures items { OnOk result (items.new.items ≡ items.old.items ++ said_by (Some (turn_in turn))) }
{
    let Turn {
        counts,
        event,
        post,
        at,
        frames,
    } = turn;
    let tally = settle(limits, counts.into_tally(), event, post, spot, items)?;
    let counts = Counts::new(alloc, tally)?;
    Ok(Reader {
        at,
        frames,
        counts,
        wants: event.next,
    })
}

// The turn of a sign that is a token, where no bar is missing.
fn go(
    alloc: Global,
    limits: Limits,
    reader: Reader,
    sign: Sign,
    items: &mut Vec<Item>,
) -> Result<Reader, ReadStop>
    ensures reader { Answers (λ r. r) result (settled limits sign.spot (turn limits reader.at reader.frames reader.counts sign.symbol sign.spot)) }
    ensures items { OnOk result (items.new.items ≡ items.old.items ++ said_at limits reader sign.symbol sign.spot) }
{
    let Reader {
        at,
        frames,
        counts,
        wants: _,
    } = reader;
    match turn(alloc, limits, at, frames, counts, sign.symbol, sign.spot) {
        Ok(turn) => return settle_turn(alloc, limits, turn, sign.spot, items),
        Err(Stop::BadSyntax) => return Err(ReadStop::Refused(bad_syntax(sign.spot))),
        Err(Stop::OutOfMemory) => return Err(ReadStop::OutOfMemory),
    }
}

// One sign.
fn feed(
    alloc: Global,
    limits: Limits,
    reader: Reader,
    sign: Sign,
    items: &mut Vec<Item>,
) -> Result<Reader, ReadStop>
    ensures reader { Answers (λ r. r) result (fed limits reader sign.symbol sign.spot) }
    ensures items { OnOk result (items.new.items ≡ items.old.items ++ said_at limits reader sign.symbol sign.spot) }
{
    if let Symbol::Bad(fault) = sign.symbol {
        return Err(ReadStop::Refused(ReadRefusal {
            kind: kind_of(fault),
            spot: sign.spot,
        }));
    }
    if let Some(spot) = missing_bar(reader.wants, sign.symbol) {
        return Err(ReadStop::Refused(bad_syntax(spot)));
    }
    go(alloc, limits, reader, sign, items)
}

// All that is said at these signs.
fn read_signs(
    alloc: Global,
    limits: Limits,
    signs: &[Sign],
    start: Reader,
) -> Result<Vec<Item>, ReadStop>
    ensures { Answers (λ items. items.items) result (all_said limits start signs.now) }
{
    let mut items = Vec::new(alloc);
    let mut reader = start;
    for sign in signs {
        match feed(alloc, limits, reader, *sign, &mut items) {
            Ok(next) => reader = next,
            Err(stop) => return Err(stop),
        }
    }
    Ok(items)
}

// Before anything is counted, in a text of so many slots and objects.
fn no_counts(alloc: Global, size: usize) -> Tally
    ensures { result ≡ at_first size }
{
    Tally {
        nesting: 0,
        pending: 0,
        nodes: 0,
        around: Stack::new(alloc),
        size,
        due: Vec::new(alloc),
        late: Vec::new(alloc),
        ready: Vec::new(alloc),
    }
}

// A reader in the list of slots that this frame stands for.
fn before(alloc: Global, frame: Frame, size: usize) -> Result<Reader, AllocError>
    ensures { IfOk result (λ reader. reader ≡ before_list frame size) }
{
    let mut frames = Stack::new(alloc);
    frames.push(frame)?;
    let counts = Counts::new(alloc, no_counts(alloc, size))?;
    Ok(Reader {
        at: At::Name(AtName::Slot),
        frames,
        counts,
        wants: None,
    })
}

// A reader before the first sign of a world.
fn before_world(alloc: Global) -> Result<Reader, AllocError>
    ensures { IfOk result (λ reader. reader ≡ before_world) }
{
    let scope = Scope::open(alloc, Owner::Holder)?;
    before(alloc, Frame::Slots(Slots::List(Holder::World, scope)), 1)
}

// The items of the world that these signs spell, the last of which is the end or a fault.
pub(crate) fn read_world_signs(
    alloc: Global,
    limits: Limits,
    signs: &[Sign],
) -> Result<Vec<Item>, ReadStop>
    requires { IsWhole signs.now }
    // What is read is a world with nothing wrong, which the signs spell.
    ensures found { IfOk result (λ items. AreRead World (world limits) signs.now items.items) }
    // What spells a world with nothing wrong is read, unless memory runs out.
    ensures only { (w : World) → IsText (world limits) signs.now w → IsAnswered (λ items. items.items) result (items_of (world limits w)) }
    // A refusal stands at the first sign at which something is wrong, for what is wrong there first.
    ensures refused { IsRightlyRefused World (world limits) signs.now result }
{
    let Ok(start) = before_world(alloc) else {
        return Err(ReadStop::OutOfMemory);
    };
    read_signs(alloc, limits, signs, start)
}

// The items of the method slot of an edit that these signs spell, the last of which is the end or a fault.
pub(crate) fn read_edit_signs(
    alloc: Global,
    limits: Limits,
    signs: &[Sign],
) -> Result<Vec<Item>, ReadStop>
    requires { IsWhole signs.now }
    // What is read is an edit with nothing wrong, which the signs spell.
    ensures found { IfOk result (λ items. AreRead Edit (edit limits) signs.now items.items) }
    // What spells an edit with nothing wrong is read, unless memory runs out.
    ensures only { (e : Edit) → IsText (edit limits) signs.now e → IsAnswered (λ items. items.items) result (items_of (edit limits e)) }
    // A refusal stands at the first sign at which something is wrong, for what is wrong there first.
    ensures refused { IsRightlyRefused Edit (edit limits) signs.now result }
{
    let Ok(start) = before(alloc, Frame::Slots(Slots::Edit), 0) else {
        return Err(ReadStop::OutOfMemory);
    };
    read_signs(alloc, limits, signs, start)
}
