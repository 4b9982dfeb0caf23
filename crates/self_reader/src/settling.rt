// What is wrong first at a sign by what is counted before it, and what is counted and said there.
ghost use Rattle.std.specs.Prelude.{◌≡◌, ◌+◌, ◌-◌, ◌<◌, ◌^◌, ◌++◌, [], true, None, map, length, IfOk, OnOk, if◌then◌else◌};
ghost use Rattle.self_grammar.specs.Counts.{stated, takes, gives, rank, too_pending, pending_after, too_many_nodes, too_large, nesting_after, resumed, moved, breaches, items_at};
ghost use Rattle.self_grammar.specs.declared.pieces.Item.TheVariants.{Node as node_item};
ghost use Rattle.reader_states.specs.Turns.{listed, event_in, after};
ghost use Rattle.self_reader.specs.Settling.{or_sooner, first_at, too_deep, broken_at, HasRoom, sums_behind, Settles};

use crate::stops::ReadStop;
use reader_states::{Event, Post, Stack, Tally};
use self_grammar::{
    Breach, Held, Item, Limits, Made, ReadKind, ReadRefusal, Spot, Target, TextNode,
};
use std::alloc::AllocError;

// The numbers among what is counted.
#[derive(Clone, Copy)]
struct Sums {
    nesting: usize,
    pending: usize,
    nodes: usize,
    size: usize,
}

// The order in which kinds count at one sign.
fn rank(kind: ReadKind) -> u8
    ensures { result ≡ rank kind }
{
    match kind {
        ReadKind::BadToken => 0,
        ReadKind::BadEscape => 1,
        ReadKind::IntTooWide => 2,
        ReadKind::BadSyntax => 3,
        ReadKind::TooDeep => 4,
        ReadKind::TooManyArgs => 5,
        ReadKind::TooManyLocals => 6,
        ReadKind::DuplicateSlot => 7,
        ReadKind::TooManyNodes => 8,
    }
}

// What is wrong first, where this rule is broken too.
fn or_sooner(first: Option<ReadRefusal>, breach: Option<Breach>, spot: Spot) -> Option<ReadRefusal>
    ensures { result ≡ or_sooner first (first_at spot (listed breach)) }
{
    let Some(breach) = breach else {
        return first;
    };
    let next = ReadRefusal {
        kind: breach.kind,
        spot: breach.place.unwrap_or(spot),
    };
    let Some(earlier) = first else {
        return Some(next);
    };
    if rank(earlier.kind) <= rank(next.kind) {
        return Some(earlier);
    }
    Some(next)
}

// What is wrong first by the rules that are known late.
fn first_late(late: &[Breach], spot: Spot) -> Option<ReadRefusal>
    ensures { result ≡ first_at spot late.now }
{
    let mut first = None;
    for breach in late {
        first = or_sooner(first, Some(*breach), spot);
    }
    first
}

// How many values a message takes before its arguments.
fn receiver(to: Target) -> usize
    ensures { result ≡ stated to }
{
    match to {
        Target::Given => 1,
        Target::Implied => 0,
        Target::Parents => 0,
        Target::Parent(_) => 0,
    }
}

// What is left pending where a node takes its values.
fn taken(pending: usize, node: TextNode) -> usize
    ensures { result ≡ pending - takes node }
{
    match node {
        TextNode::Message { to, args, .. } => {
            pending.saturating_sub(args).saturating_sub(receiver(to))
        }
        TextNode::Primitive {
            args,
            implied,
            handler,
            ..
        } => {
            let pending = pending.saturating_sub(args);
            let pending = if implied {
                pending
            } else {
                pending.saturating_sub(1)
            };
            if handler {
                pending.saturating_sub(1)
            } else {
                pending
            }
        }
        TextNode::Drop => pending.saturating_sub(1),
        TextNode::Return => pending.saturating_sub(1),
        TextNode::End => pending.saturating_sub(1),
        _ => pending,
    }
}

// How many values a node pends.
fn given(node: TextNode) -> usize
    ensures { result ≡ gives node }
{
    match node {
        TextNode::Drop => 0,
        TextNode::Return => 0,
        TextNode::End => 0,
        _ => 1,
    }
}

// The pending values behind these nodes, and the first node that makes more than the limit.
fn pend(limit: u32, pending: usize, made: &[Made]) -> (usize, Option<Breach>)
    ensures broken { listed result.1 ≡ too_pending limit pending made.now }
    ensures pending { result.1 ≡ None → result.0 ≡ pending_after pending made.now }
{
    let mut behind = pending;
    for m in made {
        let next = taken(behind, m.node).saturating_add(given(m.node));
        if next > limit as usize {
            return (
                behind,
                Some(Breach {
                    kind: ReadKind::TooDeep,
                    place: Some(m.spot),
                }),
            );
        }
        behind = next;
    }
    (behind, None)
}

// The first node that passes the limit of its body, or that of the text.
fn too_many_nodes(limits: Limits, nodes: usize, size: usize, made: &[Made]) -> Option<Breach>
    ensures { listed result ≡ too_many_nodes limits nodes size made.now }
{
    let mut of_body = nodes;
    let mut of_text = size;
    for m in made {
        if of_body >= limits.body as usize || of_text >= limits.size as usize {
            return Some(Breach {
                kind: ReadKind::TooManyNodes,
                place: Some(m.spot),
            });
        }
        of_body += 1;
        of_text += 1;
    }
    None
}

// One more that is open is too many.
fn too_deep(limits: Limits, nesting: usize, opens: bool) -> Option<Breach>
    ensures { listed result ≡ too_deep limits nesting opens }
{
    if !opens || nesting < limits.nesting as usize {
        return None;
    }
    Some(Breach {
        kind: ReadKind::TooDeep,
        place: None,
    })
}

// The slot or the object that passes the limit of the text, behind so many nodes.
fn too_large(limits: Limits, size: usize, nodes: usize, counted: Option<Spot>) -> Option<Breach>
    ensures { listed result ≡ too_large limits (size + nodes) (listed counted) }
{
    let Some(spot) = counted else {
        return None;
    };
    if size.saturating_add(nodes) < limits.size as usize {
        return None;
    }
    Some(Breach {
        kind: ReadKind::TooManyNodes,
        place: Some(spot),
    })
}

// What is wrong first at a sign. What the pending values break is found already.
fn first_fault(
    limits: Limits,
    late: &[Breach],
    sums: Sums,
    made: &[Made],
    pended: Option<Breach>,
    event: Event,
    spot: Spot,
) -> Option<ReadRefusal>
    requires { listed pended ≡ too_pending limits.pending sums.pending made.now }
    ensures { result ≡ first_at spot (broken_at limits late.now sums made.now (event_in event)) }
{
    let first = first_late(late, spot);
    let first = or_sooner(first, event.broken, spot);
    let first = or_sooner(first, event.broken_too, spot);
    let first = or_sooner(first, too_deep(limits, sums.nesting, event.opens), spot);
    let first = or_sooner(first, pended, spot);
    let first = or_sooner(
        first,
        too_many_nodes(limits, sums.nodes, sums.size, made),
        spot,
    );
    or_sooner(
        first,
        too_large(limits, sums.size, made.len(), event.counted),
        spot,
    )
}

// The nodes that are due, and then those that the sign makes.
fn all_made(due: Vec<Made>, event: Event) -> Result<Vec<Made>, AllocError>
    ensures { IfOk result (λ made. made.items ≡ due.items ++ (event_in event).made) }
{
    let mut made = due;
    if let Some(first) = event.made {
        made.push(first)?;
    }
    if let Some(second) = event.made_too {
        made.push(second)?;
    }
    Ok(made)
}

// What is said at a sign: the slots that end before it, the nodes, and what it says itself.
fn say(
    items: &mut Vec<Item>,
    ready: &[Item],
    made: &[Made],
    says: Option<Item>,
) -> Result<(), AllocError>
    ensures { OnOk result (items.new.items ≡ items.old.items ++ (ready.now ++ map node_item made.now ++ listed says)) }
{
    for item in ready {
        items.push(*item)?;
    }
    for node in made {
        items.push(Item::Node(*node))?;
    }
    if let Some(item) = says {
        items.push(item)?;
    }
    Ok(())
}

// The counts of the body around, behind the end of one.
fn resume(counts: Tally) -> Tally
    ensures { result ≡ resumed counts.around counts }
{
    let mut counts = counts;
    let Some(held) = counts.around.pop() else {
        return counts;
    };
    counts.pending = held.pending;
    counts.nodes = held.nodes;
    counts
}

fn leave(counts: Tally, leaves: bool) -> Tally
    ensures { result ≡ (if leaves then resumed counts.around counts else counts) }
{
    if leaves {
        return resume(counts);
    }
    counts
}

// What is counted behind a sign.
fn go_on(counts: Tally, post: Post) -> Result<Tally, AllocError>
    ensures { IfOk result (λ c. c ≡ after post counts) }
{
    match post {
        Post::Stay => return Ok(counts),
        Post::Enter => {
            let mut counts = counts;
            counts.around.push(Held {
                pending: counts.pending,
                nodes: counts.nodes,
            })?;
            counts.pending = 0;
            counts.nodes = 0;
            return Ok(counts);
        }
        Post::Owe(node) => {
            let mut counts = counts;
            counts.due.push(node)?;
            return Ok(counts);
        }
    }
}

// How many are open behind a sign.
fn nest(nesting: usize, opens: bool, closes: bool) -> usize
    ensures { (opens ≡ true → nesting + 1 < 2 ^ 64) → result ≡ nesting_after nesting opens closes }
{
    if opens {
        return nesting.saturating_add(1);
    }
    if closes {
        return nesting.saturating_sub(1);
    }
    nesting
}

fn one_if(counted: Option<Spot>) -> usize
    ensures { result ≡ length (listed counted) }
{
    match counted {
        None => 0,
        Some(_) => 1,
    }
}

// The numbers behind a sign at which nothing is wrong.
fn sums_behind(limits: Limits, sums: Sums, pending: usize, made: &[Made], event: Event) -> Sums
    requires sound { HasRoom limits sums made.now (event_in event) }
    requires pending { pending ≡ pending_after sums.pending made.now }
    ensures { result ≡ sums_behind sums made.now (event_in event) }
{
    Sums {
        nesting: nest(sums.nesting, event.opens, event.closes),
        pending,
        nodes: sums.nodes.saturating_add(made.len()),
        size: sums
            .size
            .saturating_add(made.len())
            .saturating_add(one_if(event.counted)),
    }
}

// These numbers, with nothing left to settle.
fn behind(
    sums: Sums,
    around: Stack<Held>,
    made: Vec<Made>,
    late: Vec<Breach>,
    ready: Vec<Item>,
) -> Tally
    ensures { result ≡ record {
      nesting = sums.nesting;
      pending = sums.pending;
      nodes = sums.nodes;
      around = around;
      size = sums.size;
      due = [];
      late = [];
      ready = [];
    } }
{
    let mut due = made;
    due.clear();
    let mut late = late;
    late.clear();
    let mut ready = ready;
    ready.clear();
    Tally {
        nesting: sums.nesting,
        pending: sums.pending,
        nodes: sums.nodes,
        around,
        size: sums.size,
        due,
        late,
        ready,
    }
}

// What is wrong first at a sign, by what is counted before it, or what is counted behind it. The items that are said
// there come behind those so far.
pub(crate) fn settle(
    limits: Limits,
    counts: Tally,
    event: Event,
    post: Post,
    spot: Spot,
    items: &mut Vec<Item>,
) -> Result<Tally, ReadStop>
    ensures settled { Settles result (first_at spot (breaches limits counts (event_in event))) (after post (moved counts (event_in event))) }
    ensures items { OnOk result (items.new.items ≡ items.old.items ++ items_at counts (event_in event)) }
{
    let Tally {
        nesting,
        pending,
        nodes,
        around,
        size,
        due,
        late,
        ready,
    } = counts;
    let sums = Sums {
        nesting,
        pending,
        nodes,
        size,
    };
    let made = all_made(due, event)?;
    let (pending, pended) = pend(limits.pending, pending, &made);
    match first_fault(limits, &late, sums, &made, pended, event, spot) {
        Some(refusal) => return Err(ReadStop::Refused(refusal)),
        None => {}
    }
    say(items, &ready, &made, event.says)?;
    let sums = sums_behind(limits, sums, pending, &made, event);
    let counts = behind(sums, around, made, late, ready);
    let counts = leave(counts, event.leaves);
    Ok(go_on(counts, post)?)
}
