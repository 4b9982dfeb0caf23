//! Another activity becomes the current one.
ghost use Rattle.plain_host.specs.Hosted.{host};
ghost use Rattle.std.specs.Prelude.{◌≡◌, ◌≢◌, ◌<◌, ◌+◌, ◌^◌, ℕ, Some, slice_get};
ghost use Rattle.sparc_store.specs.Windows.{CanFlush, IsPlace};
ghost use Rattle.sparc_machine.specs.State.{stack_of};
ghost use Rattle.sparc_machine.specs.Held.{state};
ghost use Rattle.plain_runs.specs.declared.status.Status.TheVariants.{Waiting};
ghost use Rattle.plain_switches.specs.Switching.{in_frame, comes_up, switches};

use crate::hosting::Hosting;
use plain_runs::Status;
use sparc_machine::Machine;

// The youngest frame of an activity of so many is in view, and its code goes on.
fn take_up(machine: &mut Machine, sp: u32, pc: u32, count: u32)
    requires place { IsPlace sp }
    requires code { pc + 4 < 2 ^ 32 }
    ensures { state machine.new ≡ in_frame sp pc count (state machine.old) }
{
    machine.take_up(sp);
    machine.set(4, count);
    machine.go_to(pc);
}

#[tactic(auto, unfolding(crate::specs::Hosted::host))]
impl Hosting {
    // The youngest frame of an activity that waits is in view; and the activity is the current one.
    fn come_up(&mut self, k: u32)
        requires place { (sp pc count : ℕ) → slice_get (host self.old).statuses k ≡ Some (Waiting sp pc count) → IsPlace sp }
        requires code { (sp pc count : ℕ) → slice_get (host self.old).statuses k ≡ Some (Waiting sp pc count) → pc + 4 < 2 ^ 32 }
        ensures { host self.new ≡ comes_up k (host self.old) }
    {
        match self.status(k) {
            Some(Status::Waiting(sp, pc, count)) => take_up(&mut self.machine, sp, pc, count),
            Some(Status::Answered(_)) => {}
            Some(Status::Failed(_, _)) => {}
            None => {}
        }
        self.current = k;
    }

    /// Makes another activity the current one: the frames of the one that was stand in its stack, and where the other waits, its youngest is in view.
    pub fn switch(&mut self, k: u32)
        requires flushes { (sp pc count : ℕ) → slice_get (host self.old).statuses (host self.old).current ≡ Some (Waiting sp pc count) → CanFlush (stack_of (host self.old).machine) }
        requires place { (sp pc count : ℕ) → slice_get (host self.old).statuses k ≡ Some (Waiting sp pc count) → k ≢ (host self.old).current → IsPlace sp }
        requires code { (sp pc count : ℕ) → slice_get (host self.old).statuses k ≡ Some (Waiting sp pc count) → k ≢ (host self.old).current → pc + 4 < 2 ^ 32 }
        ensures { host self.new ≡ switches k (host self.old) }
    {
        if k == self.current {
            return;
        }
        self.park();
        self.come_up(k);
    }
}
