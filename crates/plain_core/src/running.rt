//! A run of so many steps.
ghost use Rattle.std.specs.Prelude.{◌≡◌, ◌<◌, ◌≤◌, ◌+◌, ◌-◌, ◌*◌, ◌^◌, ℕ, List, OnOk, OnErr, IfOk, IsErrOf};
ghost use Rattle.io_ports.specs.Causes.{Rose};
ghost use Rattle.source_model.specs.State.{State};
ghost use Rattle.plain_turns.specs.Asking.{count};
ghost use Rattle.plain_turns.specs.Events.{Reaches};
ghost use Rattle.plain_turns.specs.Resting.{IsGoing};
ghost use Rattle.plain_turns.specs.Rooms.{unmade};
ghost use Rattle.plain_host.specs.Hosted.{host};
ghost use Rattle.plain_core.specs.Language.{KnowsCore};
ghost use Rattle.plain_core.specs.Running.{CanRun, HasBroken, HasRunOn, HasSpent, IsFew};
ghost use Rattle.plain_core.specs.Turning.{Broken, CanGoOn, Ran};
ghost use Rattle.plain_core.specs.declared.running.RunErr.TheVariants.{Write};

use crate::language::Language;
use crate::turning::{MOST_COST, go, take_turn};
use io_ports::Sink;
use plain_host::Hosting;
use slot_lookup::Walk;
use std::alloc::{AllocError, Global};

/// How many instructions the machine has done, and how many services the host has given.
#[derive(Clone, Copy, PartialEq, Eq, Debug)]
pub struct Counts {
    pub instructions: u128,
    pub services: u64,
}

/// Why a run broke off: want of memory, or what it prints couldn't be written.
#[derive(Clone, Copy, PartialEq, Eq, Debug)]
pub enum RunErr {
    OutOfMemory,
    Write,
}

impl From<AllocError> for RunErr {
    ghost use Rattle.plain_core.specs.declared.running.RunErr.TheVariants.{OutOfMemory};

    ghost from_gives = { λ _ e. e ≡ OutOfMemory };

    fn from(_: AllocError) -> Self {
        RunErr::OutOfMemory
    }
}

// The words go on, from trap to trap, until the run has ended.
fn run_to<K: Sink>(
    hosting: &mut Hosting,
    alloc: Global,
    walk: &mut Walk,
    language: &Language,
    out: &mut K,
    target: u64,
) -> Result<Counts, RunErr>
    requires at { CanGoOn language.now (host hosting.old) target }
    requires small { target ≤ 2 ^ 61 }
    requires core { KnowsCore (host hosting.old) language.now }
    requires room { (host hosting.old).next ≤ walk.old }
    ensures runs { OnOk result (Ran language.now (host hosting.old) (host hosting.new) target (K.taken out.old) (K.taken out.new)) }
    ensures reached { IfOk result (λ n. Reaches (host hosting.old) n.instructions n.services (host hosting.new)) }
    ensures few { IfOk result (λ n. (n.instructions ≤ 2 ^ 70) × (n.services < 2 ^ 30)) }
    ensures spent { IfOk result (λ n. (from : State) (out : List ℕ) → IsGoing (host hosting.old) from target out → n.services + unmade (host hosting.new).entries ≤ (target - from.steps) + 3 + unmade (host hosting.old).entries) }
    ensures each { IfOk result (λ n. n.instructions ≤ 2 ^ 40 * (n.services + 1)) }
    ensures roomy { OnOk result ((host hosting.new).next ≤ walk.new) }
    ensures grown { walk.old ≤ walk.new }
    ensures broken { OnErr result (Broken language.now (host hosting.old) target (K.taken out.old) (K.taken out.new)) }
    ensures later { K.faults out.old ≤ K.faults out.new }
    ensures cause { IsErrOf result Write → Rose (K.faults out.old) (K.faults out.new) }
{
    let first = go(hosting, language, target);
    let mut at = Some(first.trap);
    let mut instructions = first.instructions as u128;
    let mut services = 0;
    while let Some(trap) = at {
        let turn = take_turn(hosting, alloc, walk, language, out, trap, target)?;
        instructions += turn.instructions as u128;
        services += 1;
        at = turn.next;
    }
    Ok(Counts {
        instructions,
        services,
    })
}

/// The current activity goes on for so many steps, or until it ends, by the words of its units: those that are wanted are put, messages are looked
/// up, and primitives applied; `out` takes what is printed. It answers how many instructions and services that took. `walk` is lent room to look at
/// all objects, and has it afterwards. A run that broke off stands at a trap and can't go on.
pub fn run<K: Sink>(
    hosting: &mut Hosting,
    alloc: Global,
    walk: &mut Walk,
    language: &Language,
    out: &mut K,
    steps: u32,
) -> Result<Counts, RunErr>
    requires rests { CanRun language.now (host hosting.old) }
    requires known { KnowsCore (host hosting.old) language.now }
    requires few { steps ≤ 1000000000 }
    requires counted { count (host hosting.old) + steps ≤ 2 ^ 61 }
    requires room { (host hosting.old).next ≤ walk.old }
    ensures ran { IfOk result (λ n. HasRunOn steps n language.now (host hosting.old) (host hosting.new) (K.taken out.old) (K.taken out.new)) }
    ensures few { IfOk result IsFew }
    ensures spent { IfOk result (λ n. HasSpent steps n (host hosting.old) (host hosting.new)) }
    ensures roomy { OnOk result ((host hosting.new).next ≤ walk.new) }
    ensures grown { walk.old ≤ walk.new }
    ensures same { OnOk result ((host hosting.new).references ≡ (host hosting.old).references) }
    ensures broken { OnErr result (HasBroken steps language.now (host hosting.old) (K.taken out.old) (K.taken out.new)) }
    ensures later { K.faults out.old ≤ K.faults out.new }
    ensures cause { IsErrOf result Write → Rose (K.faults out.old) (K.faults out.new) }
{
    hosting.is_whole();
    let target = hosting.steps() + steps as u64;
    let cost = MOST_COST.saturating_sub(hosting.cost()) as u32;
    hosting.go_back(steps, cost, 0);
    let taken = run_to(hosting, alloc, walk, language, out, target)?;
    Ok(Counts {
        instructions: taken.instructions,
        services: taken.services + 1,
    })
}
