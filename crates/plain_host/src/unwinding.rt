//! Services 4 and 8, where activations have contexts: activations end that aren't the youngest alone.
ghost use Rattle.plain_host.specs.Hosted.{host};
ghost use Rattle.std.specs.Prelude.{◌≡◌, ◌≢◌, ◌<◌, ◌≤◌, ◌+◌, ◌-◌, ◌^◌, nat_eq, if◌then◌else◌, length};
ghost use Rattle.sparc_store.specs.Words.{HasWord};
ghost use Rattle.sparc_store.specs.Windows.{CanFlush, IsPlace, saved_at};
ghost use Rattle.sparc_machine.specs.State.{stack_of};
ghost use Rattle.sparc_machine.specs.Held.{state};
ghost use Rattle.plain_unwinds.specs.Frames.{AreWalked, contexts_at, ending_at, frame_behind, with_all_cleared, with_cleared};
ghost use Rattle.plain_unwinds.specs.Services.{CanUnwind, answers_from_home, ended_older, fails_unmarked, home_at, returns_to, unmarked, unwinds, unwound, written};

use crate::hosting::Hosting;
use plain_runs::Status;
use self_terms::{ErrorName, Place};
use sparc_machine::Machine;

// A word of the window that is saved where a frame begins, by its number there.
#[tactic(auto, unfolding(sparc_store::specs::Windows::saved_at))]
fn saved(machine: &Machine, at: u32, number: u32) -> u32
    requires place { IsPlace at }
    requires number { number < 16 }
    ensures { result ≡ saved_at (state machine.now).memory at number }
{
    machine.load(at + 4 * number)
}

// The frame mark of a context becomes 0; a 0 stands for an activation without a context.
fn clear_mark(machine: &mut Machine, context: u32)
    requires { context ≢ 0 → HasWord (context + 7) }
    ensures { state machine.new ≡ record (state machine.old) { memory = with_cleared (state machine.old).memory context } }
{
    if context != 0 {
        machine.store(context + 7, 0);
    }
}

// Those of the contexts of so many frames, the youngest of which begins at an address.
fn clear_marks(machine: &mut Machine, count: u32, at: u32)
    requires { AreWalked (state machine.old).memory count at }
    ensures { state machine.new ≡ record (state machine.old) { memory = with_all_cleared (state machine.old).memory (contexts_at (state machine.old).memory count at) } }
{
    let mut frame = at;
    let mut left = count;
    while left > 0 {
        let context = saved(machine, frame, 1);
        clear_mark(machine, context);
        frame = saved(machine, frame, 14);
        left -= 1;
    }
}

// The context of the maker of an activation, where this is its own; else this.
fn outwards(machine: &Machine, at: u32, context: u32) -> u32
    requires { IsPlace at }
    ensures { result ≡ (if nat_eq (saved_at (state machine.now).memory at 1) context then saved_at (state machine.now).memory at 0 else context) }
{
    if saved(machine, at, 1) == context {
        saved(machine, at, 0)
    } else {
        context
    }
}

// How many frames that are older than the youngest end with the home's, and where that begins.
#[derive(Drop)]
struct Home {
    ended: u32,
    at: u32,
}

// The home of the youngest of so many frames, which begins at an address.
fn home_of(machine: &Machine, count: u32, at: u32) -> Home
    requires some { 0 < count }
    requires walked { AreWalked (state machine.now).memory count at }
    ensures ended { let first = saved_at (state machine.now).memory at in result.ended ≡ ending_at (state machine.now).memory (count - 1) (first 14) (first 0) }
    ensures within { result.ended < count }
    ensures at { result.at ≡ frame_behind (state machine.now).memory result.ended at }
{
    let mut ended = 0;
    let mut home = at;
    let mut context = saved(machine, at, 0);
    while ended + 1 < count {
        if context == 0 {
            return Home { ended, at: home };
        }
        home = saved(machine, home, 14);
        context = outwards(machine, home, context);
        ended += 1;
    }
    Home { ended, at: home }
}

#[tactic(auto, unfolding(crate::specs::Hosted::host))]
impl Hosting {
    // The windows of the current activity are flushed.
    fn write(&mut self)
        requires { CanFlush (stack_of (host self.old).machine) }
        ensures { host self.new ≡ written (host self.old) }
    {
        self.machine.flush();
    }

    // The frame marks of the contexts of its youngest activations, so many of them, become 0.
    fn unmark(&mut self, count: u32)
        requires { AreWalked (host self.old).machine.memory count ((host self.old).machine.regs 14) }
        ensures { host self.new ≡ unmarked count (host self.old) }
    {
        let at = self.machine.get(14);
        clear_marks(&mut self.machine, count, at);
    }

    /// The current activity has ended by an error, at a place, with all its activations.
    pub fn fail_unmarked(&mut self, goal: u32, cost: u32, error: ErrorName, place: Place)
        requires steps { (host self.old).steps < 2 ^ 62 }
        requires cost { (host self.old).cost < 2 ^ 62 }
        requires running { (host self.old).current < length (host self.old).statuses }
        requires can { CanUnwind (host self.old) }
        ensures { host self.new ≡ fails_unmarked goal cost error place (host self.old) }
    {
        self.write();
        let count = self.machine.get(4);
        self.unmark(count);
        self.fail(goal, cost, error, place);
    }

    // A caller goes on with the answer, and a step is done.
    fn return_to(&mut self, at: u32, pc: u32, left: u32)
        requires place { IsPlace at }
        requires pc { pc + 4 < 2 ^ 32 }
        requires steps { (host self.old).steps < 2 ^ 63 }
        ensures { host self.new ≡ returns_to at pc left (host self.old) }
    {
        let answer = self.machine.get(8);
        self.machine.take_up(at);
        self.machine.set(8, answer);
        self.machine.set(4, left);
        self.machine.go_to(pc);
        self.steps += 1;
    }

    // The activity has answered, and a step is done.
    fn answer_from_home(&mut self)
        requires steps { (host self.old).steps < 2 ^ 63 }
        requires running { (host self.old).current < length (host self.old).statuses }
        ensures { host self.new ≡ answers_from_home (host self.old) }
    {
        self.steps += 1;
        let answer = self.machine.get(8);
        self.set_status(Status::Answered(answer));
    }

    // A word of the window that is saved where a frame begins, by its number there.
    fn saved(&self, at: u32, number: u32) -> u32
        requires place { IsPlace at }
        requires number { number < 16 }
        ensures { result ≡ saved_at (host self.now).machine.memory at number }
    {
        saved(&self.machine, at, number)
    }

    // The home of the youngest activation of the current activity.
    fn home(&self) -> Home
        requires some { 0 < (host self.now).machine.regs 4 }
        requires walked { AreWalked (host self.now).machine.memory ((host self.now).machine.regs 4) ((host self.now).machine.regs 14) }
        ensures ended { result.ended ≡ ended_older (host self.now) }
        ensures within { result.ended < (host self.now).machine.regs 4 }
        ensures at { result.at ≡ home_at (host self.now) }
    {
        home_of(&self.machine, self.machine.get(4), self.machine.get(14))
    }

    // The home's caller goes on with the answer, or the activity has answered, where the windows were flushed.
    fn unwind_written(&mut self, goal: u32, cost: u32)
        requires steps { (host self.old).steps < 2 ^ 62 }
        requires cost { (host self.old).cost < 2 ^ 62 }
        requires running { (host self.old).current < length (host self.old).statuses }
        requires some { 0 < (host self.old).machine.regs 4 }
        requires walked { AreWalked (host self.old).machine.memory ((host self.old).machine.regs 4) ((host self.old).machine.regs 14) }
        ensures { host self.new ≡ unwound goal cost (host self.old) }
    {
        let count = self.register(4);
        let home = self.home();
        let ended = home.ended + 1;
        let next = self.saved(home.at, 14);
        let back = self.saved(home.at, 15);
        self.unmark(ended);
        self.settle(goal, cost);
        if ended < count {
            self.return_to(next, back + 8, count - ended);
        } else {
            self.answer_from_home();
        }
    }

    /// A return from a home method, with the answer in %o0: all activations up to the home's end, and its caller goes on with the answer.
    pub fn unwind(&mut self, goal: u32, cost: u32)
        requires steps { (host self.old).steps < 2 ^ 62 }
        requires cost { (host self.old).cost < 2 ^ 62 }
        requires running { (host self.old).current < length (host self.old).statuses }
        requires can { CanUnwind (host self.old) }
        ensures { host self.new ≡ unwinds goal cost (host self.old) }
    {
        self.write();
        self.unwind_written(goal, cost);
    }
}
