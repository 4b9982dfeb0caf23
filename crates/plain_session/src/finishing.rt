//! The command `finish`.
ghost use Rattle.std.specs.Prelude.{◌≤◌, ◌+◌, ◌^◌, IfOk, OnErr, IsErrOf};
ghost use Rattle.io_ports.specs.Causes.{Rose};
ghost use Rattle.session_text.specs.LineTexts.{HasRoom, line_text};
ghost use Rattle.source_model.specs.State.{State};
ghost use Rattle.plain_turns.specs.Asking.{count};
ghost use Rattle.plain_turns.specs.Resting.{Rests};
ghost use Rattle.plain_core.specs.declared.running.RunErr.TheVariants.{Write};
ghost use Rattle.run_lines.specs.Standing.{GoesOn, IsStanding};
ghost use Rattle.run_lines.specs.declared.current.Standing.TheVariants as standings;
ghost use Rattle.plain_session.specs.Commands.{finishes};
ghost use Rattle.plain_session.specs.Sessions.{host_of, IsShown, HasObeyed, HasBroken, IsLed, CanCount, CountsFew};

use crate::sessions::Session;
use io_ports::Sink;
use plain_core::RunErr;
use run_lines::{Standing, run_line, standing_of};
use session_text::LineText;
use std::alloc::Global;

impl Session {
    // On until the youngest activation is gone, where the current activity goes on.
    fn go_until_gone<K: Sink>(
        &mut self,
        alloc: Global,
        steps: u32,
        out: &mut K,
    ) -> Result<LineText<'static>, RunErr>
        requires shows { IsShown self.old }
        requires few { steps ≤ 1000000000 }
        requires counted { count (host_of self.old) ≤ 2 ^ 60 }
        requires fits { CanCount self.old }
        requires goes { GoesOn (host_of self.old) }
        requires stands { (s : State) → Rests (host_of self.old) s → IsStanding s standings.Goes }
        ensures obeys { IfOk result (λ t. HasObeyed self.old self.new (finishes steps) (K.taken out.old) (K.taken out.new) (line_text t)) }
        ensures room { IfOk result HasRoom }
        ensures counted { IfOk result (λ t. count (host_of self.new) ≤ count (host_of self.old) + steps) }
        ensures led { IfOk result (λ t. IsLed self.old self.new) }
        ensures rose { IfOk result (λ t. CountsFew self.old self.new) }
        ensures broken { OnErr result (HasBroken self.old (finishes steps) (K.taken out.old) (K.taken out.new)) }
        ensures later { K.faults out.old ≤ K.faults out.new }
        ensures cause { IsErrOf result Write → Rose (K.faults out.old) (K.faults out.new) }
    {
        let taken = plain_core::finish(
            &mut self.hosting,
            alloc,
            &mut self.walk,
            &self.language,
            out,
            steps,
        )?;
        self.instructions += taken.instructions;
        self.services += taken.services;
        Ok(run_line(&self.hosting, self.language.core()))
    }

    /// The command `finish` of at most so many steps: `out` takes what is printed, and the line is given. A run that broke off can't go on.
    pub fn finish<K: Sink>(
        &mut self,
        alloc: Global,
        steps: u32,
        out: &mut K,
    ) -> Result<LineText<'static>, RunErr>
        requires shows { IsShown self.old }
        requires few { steps ≤ 1000000000 }
        requires counted { count (host_of self.old) ≤ 2 ^ 60 }
        requires fits { CanCount self.old }
        ensures obeys { IfOk result (λ t. HasObeyed self.old self.new (finishes steps) (K.taken out.old) (K.taken out.new) (line_text t)) }
        ensures room { IfOk result HasRoom }
        ensures counted { IfOk result (λ t. count (host_of self.new) ≤ count (host_of self.old) + steps) }
        ensures led { IfOk result (λ t. IsLed self.old self.new) }
        ensures rose { IfOk result (λ t. CountsFew self.old self.new) }
        ensures broken { OnErr result (HasBroken self.old (finishes steps) (K.taken out.old) (K.taken out.new)) }
        ensures later { K.faults out.old ≤ K.faults out.new }
        ensures cause { IsErrOf result Write → Rose (K.faults out.old) (K.faults out.new) }
    {
        match standing_of(&self.hosting) {
            Standing::Nobody => Ok(LineText::Fixed("refused no activity")),
            Standing::Goes => self.go_until_gone(alloc, steps, out),
            Standing::Ended => Ok(LineText::Fixed("refused ended")),
        }
    }
}
