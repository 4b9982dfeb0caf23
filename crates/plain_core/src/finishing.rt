//! On until the youngest activation is gone.
ghost use Rattle.std.specs.Prelude.{◌≡◌, ◌≤◌, ◌+◌, ◌^◌, true, false, IfOk, OnOk, OnErr, IsErrOf};
ghost use Rattle.io_ports.specs.Causes.{Rose};
ghost use Rattle.plain_turns.specs.Asking.{count};
ghost use Rattle.plain_host.specs.Hosted.{host};
ghost use Rattle.plain_core.specs.Finishing.{HasFinished, HasStopped, IsAsDeep, IsFewer, IsOver};
ghost use Rattle.plain_core.specs.Language.{KnowsCore};
ghost use Rattle.plain_core.specs.Running.{CanRun};
ghost use Rattle.plain_core.specs.Spawning.{CanSpawn};
ghost use Rattle.plain_core.specs.declared.running.RunErr.TheVariants.{Write};

use crate::language::Language;
use crate::running::{Counts, RunErr, run};
use io_ports::Sink;
use plain_host::Hosting;
use plain_runs::Status;
use slot_lookup::Walk;
use std::alloc::Global;

// Whether the current activity goes on, with as many activations at least.
fn is_as_deep(hosting: &Hosting, depth: u32) -> bool
    requires { CanSpawn (host hosting.now) }
    ensures deep { result ≡ true → IsAsDeep depth (host hosting.now) }
    ensures over { result ≡ false → IsOver depth (host hosting.now) }
{
    match hosting.status(hosting.current()) {
        Some(Status::Waiting(_, _, _)) => hosting.register(4) >= depth,
        Some(Status::Answered(_)) => false,
        Some(Status::Failed(_, _)) => false,
        None => false,
    }
}

/// The current activity goes on until its youngest activation is gone, or it ends, at most so many steps: as `run` goes on, a step at a time. A run that
/// broke off stands at a trap and can't go on.
pub fn finish<K: Sink>(
    hosting: &mut Hosting,
    alloc: Global,
    walk: &mut Walk,
    language: &Language,
    out: &mut K,
    steps: u32,
) -> Result<Counts, RunErr>
    requires rests { CanRun language.now (host hosting.old) }
    requires known { KnowsCore (host hosting.old) language.now }
    requires few { steps ≤ 1000000000 }
    requires counted { count (host hosting.old) + steps ≤ 2 ^ 61 }
    requires room { (host hosting.old).next ≤ walk.old }
    ensures finished { IfOk result (λ n. HasFinished steps n language.now (host hosting.old) (host hosting.new) (K.taken out.old) (K.taken out.new)) }
    ensures few { IfOk result IsFewer }
    ensures roomy { OnOk result ((host hosting.new).next ≤ walk.new) }
    ensures grown { walk.old ≤ walk.new }
    ensures same { OnOk result ((host hosting.new).references ≡ (host hosting.old).references) }
    ensures broken { OnErr result (HasStopped steps language.now (host hosting.old) (K.taken out.old) (K.taken out.new)) }
    ensures later { K.faults out.old ≤ K.faults out.new }
    ensures cause { IsErrOf result Write → Rose (K.faults out.old) (K.faults out.new) }
{
    let depth = hosting.register(4);
    let mut instructions = 0;
    let mut services = 0;
    for _step in 0..steps {
        if !is_as_deep(hosting, depth) {
            return Ok(Counts {
                instructions,
                services,
            });
        }
        let taken = run(hosting, alloc, walk, language, out, 1)?;
        instructions += taken.instructions;
        services += taken.services;
    }
    Ok(Counts {
        instructions,
        services,
    })
}
