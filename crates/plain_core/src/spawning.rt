//! The command that begins an activity.
ghost use Rattle.std.specs.Prelude.{◌≡◌, ◌<◌, ◌≤◌, ◌+◌, ℕ, true, false, length, slice_get, Some, IfOk, OnErr, OnOk};
ghost use Rattle.object_maps.specs.declared.maps.SlotKind.TheVariants.{Method};
ghost use Rattle.slot_lookup.specs.declared.sends.Found.TheVariants.{One};
ghost use Rattle.source_model.specs.Soundness.{body_in};
ghost use Rattle.sparc_machine.specs.State.{stack_of};
ghost use Rattle.sparc_store.specs.Windows.{CanFlush};
ghost use Rattle.plain_words.specs.Translating.{CanTranslate};
ghost use Rattle.plain_words.specs.Units.{owns_context};
ghost use Rattle.plain_runs.specs.declared.status.Status.TheVariants.{Waiting};
ghost use Rattle.plain_host.specs.Hosted.{host};
ghost use Rattle.plain_births.specs.Births.{HasRoomThere, born, is_costly};
ghost use Rattle.plain_births.specs.Meeting.{lobby_finds};
ghost use Rattle.plain_core.specs.Leading.{Leads};
ghost use Rattle.plain_core.specs.Spawning.{CanSpawn, IsBirth, IsReady};

use crate::turning::MOST_COST;
use object_maps::SlotKind;
use plain_host::Hosting;
use plain_words::owns_context;
use self_terms::{Body, BodyId, ErrorName, Name, OutOfMemory, Selector};
use slot_lookup::{Found, Walk, lookup};
use std::alloc::Global;

/// What a spawn comes to: an activity has begun; or the command is refused, since the message meets no slot, or two, or the context of its
/// activation can't be paid; since the message meets a slot that is no method; or since there are four activities.
#[derive(Clone, Copy, PartialEq, Eq, Drop, Debug)]
pub enum Birth {
    Begun,
    Refused(ErrorName),
    NotAMethod,
    TooMany,
}

// What a name's message meets at the lobby.
fn find_at_lobby(hosting: &Hosting, walk: &mut Walk, lobby: u32, name: Name) -> Found
    requires rests { CanSpawn (host hosting.now) }
    requires room { (host hosting.now).next ≤ walk.old }
    requires lobby { slice_get (host hosting.now).references.objects 0 ≡ Some lobby }
    ensures found { result ≡ lobby_finds walk.old (host hosting.now) lobby name.0 }
    ensures same { walk.new ≡ walk.old }
{
    lookup(
        hosting.maps(),
        hosting.memory(),
        lobby,
        Selector { name, args: 0 },
        walk,
    )
}

// The address of the unit of a method that the message meets; it is put where it isn't there yet.
fn unit_at(
    hosting: &mut Hosting,
    alloc: Global,
    _walk: &Walk,
    _lobby: u32,
    _name: Name,
    _holder: u32,
    body: BodyId,
) -> Result<u32, OutOfMemory>
    requires rests { CanSpawn (host hosting.old) }
    requires room { (host hosting.old).next ≤ _walk.now }
    requires lobby { slice_get (host hosting.old).references.objects 0 ≡ Some _lobby }
    requires found { lobby_finds _walk.now (host hosting.old) _lobby _name.0 ≡ One _holder (Method body) }
    ensures ready { IfOk result (λ at. IsReady (host hosting.old) (host hosting.new) body.0 at) }
    ensures led { OnOk result (Leads (host hosting.old) 0 0 (host hosting.new)) }
    ensures finds { OnOk result (lobby_finds _walk.now (host hosting.new) _lobby _name.0 ≡ One _holder (Method body)) }
    ensures same { OnErr result (host hosting.new ≡ host hosting.old) }
{
    match hosting.entry_of(body.0) {
        None => unreachable!(),
        Some(0) => {
            let at = hosting.put_unit(alloc, body.0)?;
            hosting.is_whole();
            Ok(at)
        }
        Some(at) => Ok(at),
    }
}

// How many words the context of an activation of a body takes.
fn context_words(body: &Body) -> u64
    requires { CanTranslate body.now }
    ensures count { result ≡ 4 + (length body.now.arguments + length body.now.locals) }
    ensures small { result ≤ 1000000 }
{
    4 + body.arguments.as_slice().len() as u64 + body.locals.as_slice().len() as u64
}

// Whether the activation is to have a context that can't be paid.
fn is_costly(hosting: &Hosting, b: u32) -> bool
    requires given { 0 < b }
    requires within { b ≤ length (host hosting.now).bodies }
    requires translates { CanTranslate (body_in (host hosting.now).bodies b) }
    requires sums { (host hosting.now).cost + (host hosting.now).machine.regs 3 ≤ 4194304 }
    ensures { result ≡ is_costly (host hosting.now) b }
{
    let body = hosting.body(b);
    if !owns_context(body) {
        return false;
    }
    MOST_COST < hosting.cost() + context_words(body)
}

// The activity of a body without arguments begins, whose unit stands at an address, with a context where its activations have one.
fn start(hosting: &mut Hosting, lobby: u32, holder: u32, b: u32, at: u32)
    requires given { 0 < b }
    requires within { b ≤ length (host hosting.old).bodies }
    requires translates { CanTranslate (body_in (host hosting.old).bodies b) }
    requires few { length (host hosting.old).statuses < 4 }
    requires code { at ≤ 0x12000000 }
    requires flushes { (sp pc count : ℕ) → slice_get (host hosting.old).statuses (host hosting.old).current ≡ Some (Waiting sp pc count) → CanFlush (stack_of (host hosting.old).machine) }
    requires room { owns_context (body_in (host hosting.old).bodies b) ≡ true → HasRoomThere (host hosting.old) b }
    ensures { host hosting.new ≡ born b at lobby holder (host hosting.old) }
{
    if owns_context(hosting.body(b)) {
        hosting.begin_with_context(b, at, lobby, holder);
        return;
    }
    hosting.begin(b, at, lobby, holder);
}

// Its activity begins.
fn begin(
    hosting: &mut Hosting,
    alloc: Global,
    walk: &Walk,
    lobby: u32,
    name: Name,
    holder: u32,
    body: BodyId,
) -> Result<Birth, OutOfMemory>
    requires rests { CanSpawn (host hosting.old) }
    requires few { length (host hosting.old).statuses < 4 }
    requires room { (host hosting.old).next ≤ walk.now }
    requires lobby { slice_get (host hosting.old).references.objects 0 ≡ Some lobby }
    requires found { lobby_finds walk.now (host hosting.old) lobby name.0 ≡ One holder (Method body) }
    requires cheap { is_costly (host hosting.old) body.0 ≡ false }
    ensures born { IfOk result (λ b. IsBirth (host hosting.old) (host hosting.new) name.0 b) }
    ensures led { IfOk result (λ b. Leads (host hosting.old) 0 0 (host hosting.new)) }
    ensures objects { OnOk result ((host hosting.new).next ≡ (host hosting.old).next) }
    ensures references { OnOk result ((host hosting.new).references ≡ (host hosting.old).references) }
    ensures same { OnErr result (host hosting.new ≡ host hosting.old) }
{
    let at = unit_at(hosting, alloc, walk, lobby, name, holder, body)?;
    start(hosting, lobby, holder, body.0, at);
    Ok(Birth::Begun)
}

// The message meets a method.
fn enter(
    hosting: &mut Hosting,
    alloc: Global,
    walk: &Walk,
    lobby: u32,
    name: Name,
    holder: u32,
    body: BodyId,
) -> Result<Birth, OutOfMemory>
    requires rests { CanSpawn (host hosting.old) }
    requires few { length (host hosting.old).statuses < 4 }
    requires room { (host hosting.old).next ≤ walk.now }
    requires lobby { slice_get (host hosting.old).references.objects 0 ≡ Some lobby }
    requires found { lobby_finds walk.now (host hosting.old) lobby name.0 ≡ One holder (Method body) }
    ensures born { IfOk result (λ b. IsBirth (host hosting.old) (host hosting.new) name.0 b) }
    ensures led { IfOk result (λ b. Leads (host hosting.old) 0 0 (host hosting.new)) }
    ensures objects { OnOk result ((host hosting.new).next ≡ (host hosting.old).next) }
    ensures references { OnOk result ((host hosting.new).references ≡ (host hosting.old).references) }
    ensures same { OnErr result (host hosting.new ≡ host hosting.old) }
{
    if is_costly(hosting, body.0) {
        return Ok(Birth::Refused(ErrorName::StoreFull));
    }
    begin(hosting, alloc, walk, lobby, name, holder, body)
}

// It was looked up.
fn meet(
    hosting: &mut Hosting,
    alloc: Global,
    walk: &Walk,
    lobby: u32,
    name: Name,
    found: Found,
) -> Result<Birth, OutOfMemory>
    requires rests { CanSpawn (host hosting.old) }
    requires few { length (host hosting.old).statuses < 4 }
    requires room { (host hosting.old).next ≤ walk.now }
    requires lobby { slice_get (host hosting.old).references.objects 0 ≡ Some lobby }
    requires found { lobby_finds walk.now (host hosting.old) lobby name.0 ≡ found }
    ensures born { IfOk result (λ b. IsBirth (host hosting.old) (host hosting.new) name.0 b) }
    ensures led { IfOk result (λ b. Leads (host hosting.old) 0 0 (host hosting.new)) }
    ensures objects { OnOk result ((host hosting.new).next ≡ (host hosting.old).next) }
    ensures references { OnOk result ((host hosting.new).references ≡ (host hosting.old).references) }
    ensures same { OnErr result (host hosting.new ≡ host hosting.old) }
{
    match found {
        Found::NotUnderstood => Ok(Birth::Refused(ErrorName::NotUnderstood)),
        Found::Ambiguous { .. } => Ok(Birth::Refused(ErrorName::Ambiguous)),
        Found::One { holder, kind } => match kind {
            SlotKind::Method(body) => enter(hosting, alloc, walk, lobby, name, holder, body),
            SlotKind::Constant(_) => Ok(Birth::NotAMethod),
            SlotKind::Parent(_) => Ok(Birth::NotAMethod),
            SlotKind::Field(_) => Ok(Birth::NotAMethod),
            SlotKind::Assign(_) => Ok(Birth::NotAMethod),
        },
    }
}

/// Begins an activity of the method of a name that the lobby understands, which becomes the current one: its one activation is at the poll of
/// its first node. Where the command is refused, or memory is wanting, nothing changes. `walk` is lent room to look at all objects.
pub fn spawn(
    hosting: &mut Hosting,
    alloc: Global,
    walk: &mut Walk,
    name: Name,
) -> Result<Birth, OutOfMemory>
    requires rests { CanSpawn (host hosting.old) }
    requires room { (host hosting.old).next ≤ walk.old }
    ensures born { IfOk result (λ b. IsBirth (host hosting.old) (host hosting.new) name.0 b) }
    ensures led { IfOk result (λ b. Leads (host hosting.old) 0 0 (host hosting.new)) }
    ensures objects { OnOk result ((host hosting.new).next ≡ (host hosting.old).next) }
    ensures references { OnOk result ((host hosting.new).references ≡ (host hosting.old).references) }
    ensures unchanged { OnErr result (host hosting.new ≡ host hosting.old) }
    ensures same { walk.new ≡ walk.old }
{
    if hosting.activities() >= 4 {
        return Ok(Birth::TooMany);
    }
    let lobby = hosting.lobby();
    let found = find_at_lobby(hosting, walk, lobby, name);
    meet(hosting, alloc, walk, lobby, name, found)
}
