//! The services. Each begins to count anew, with so many steps of the goal and so much of the cost left.
ghost use Rattle.std.specs.Prelude.{◌≡◌, ◌<◌, ◌≤◌, ◌+◌, ◌^◌, length, slice_set};
ghost use Rattle.sparc_store.specs.Words.{HasWord};
ghost use Rattle.plain_runs.specs.Services.{settled, passed, data_answers, assigns, handed, calls, waits, ends, fails};
ghost use Rattle.plain_host.specs.Hosted.{host, goes_back};

use crate::hosting::Hosting;
use plain_runs::Status;
use self_terms::{ErrorName, Place};

/// What is left of the goal, and of the plain cost, at the last service.
const GOAL_LEFT: u32 = 0x3000_0000;

pub(crate) const COST_LEFT: u32 = 0x3000_0004;

// The word of a holder as it is handed to a method: 0 where that is the receiver.
fn handed(receiver: u32, holder: u32) -> u32
    ensures { result ≡ handed receiver holder }
{
    if holder == receiver { 0 } else { holder }
}

#[tactic(auto, unfolding(crate::specs::Hosted::host))]
impl Hosting {
    /// What every service does: the counts are added to the sums, and begin anew.
    pub fn settle(&mut self, goal: u32, cost: u32)
        requires steps { (host self.old).steps < 2 ^ 62 }
        requires cost { (host self.old).cost < 2 ^ 62 }
        ensures settled { host self.new ≡ settled goal cost (host self.old) }
        ensures steps { (host self.new).steps < 2 ^ 63 }
    {
        self.steps += self.machine.get(2) as u64;
        self.cost += self.machine.get(3) as u64;
        self.machine.set(2, 0);
        self.machine.set(3, 0);
        self.machine.store(GOAL_LEFT, goal);
        self.machine.store(COST_LEFT, cost);
    }

    // A step is done, and the machine goes on behind the trap.
    pub(crate) fn pass(&mut self)
        requires steps { (host self.old).steps < 2 ^ 63 }
        requires on { (host self.old).machine.npc + 4 < 2 ^ 32 }
        ensures { host self.new ≡ passed (host self.old) }
    {
        let next = self.machine.npc();
        self.machine.go_to(next);
        self.steps += 1;
    }

    /// A send is answered by data.
    pub fn answer_data(&mut self, goal: u32, cost: u32, word: u32)
        requires steps { (host self.old).steps < 2 ^ 62 }
        requires cost { (host self.old).cost < 2 ^ 62 }
        requires on { (host self.old).machine.npc + 4 < 2 ^ 32 }
        ensures { host self.new ≡ data_answers goal cost word (host self.old) }
    {
        self.settle(goal, cost);
        self.machine.set(8, word);
        self.pass();
    }

    /// A send is answered by an assignment slot, whose data stands at an address.
    pub fn assign(&mut self, goal: u32, cost: u32, at: u32)
        requires steps { (host self.old).steps < 2 ^ 62 }
        requires cost { (host self.old).cost < 2 ^ 62 }
        requires on { (host self.old).machine.npc + 4 < 2 ^ 32 }
        requires there { HasWord at }
        ensures { host self.new ≡ assigns goal cost at (host self.old) }
    {
        self.settle(goal, cost);
        let argument = self.machine.get(9);
        self.machine.store(at, argument);
        self.pass();
    }

    /// A send calls a method that stands at an entry, with the word of its holder.
    pub fn call(&mut self, goal: u32, cost: u32, entry: u32, holder: u32)
        requires steps { (host self.old).steps < 2 ^ 62 }
        requires cost { (host self.old).cost < 2 ^ 62 }
        requires entry { entry + 4 < 2 ^ 32 }
        ensures { host self.new ≡ calls goal cost entry holder (host self.old) }
    {
        self.settle(goal, cost);
        let returns = self.machine.pc().saturating_sub(4);
        let receiver = self.machine.get(8);
        self.machine.set(15, returns);
        self.machine.set(5, handed(receiver, holder));
        self.machine.go_to(entry);
    }

    /// The activity waits at the poll at whose trap the machine stands.
    pub fn wait(&mut self, goal: u32, cost: u32)
        requires steps { (host self.old).steps < 2 ^ 62 }
        requires cost { (host self.old).cost < 2 ^ 62 }
        requires poll { 20 ≤ (host self.old).machine.pc }
        ensures { host self.new ≡ waits goal cost (host self.old) }
    {
        self.settle(goal, cost);
        let poll = self.machine.pc() - 20;
        self.machine.go_to(poll);
    }

    /// The counts are settled, and the machine goes back so many bytes.
    pub fn go_back(&mut self, goal: u32, cost: u32, bytes: u32)
        requires steps { (host self.old).steps < 2 ^ 62 }
        requires cost { (host self.old).cost < 2 ^ 62 }
        requires within { bytes ≤ (host self.old).machine.pc }
        requires low { (host self.old).machine.pc + 4 < 2 ^ 32 }
        ensures { host self.new ≡ goes_back bytes goal cost (host self.old) }
    {
        self.settle(goal, cost);
        let to = self.machine.pc() - bytes;
        self.machine.go_to(to);
    }

    // How the current activity stands from now on.
    pub(crate) fn set_status(&mut self, status: Status)
        requires { (host self.old).current < length (host self.old).statuses }
        ensures { host self.new ≡ record (host self.old) { statuses = slice_set (host self.old).statuses (host self.old).current status } }
    {
        self.statuses[self.current as usize] = status;
    }

    /// The current activity has ended, with the answer in %o0.
    pub fn end(&mut self, goal: u32, cost: u32)
        requires steps { (host self.old).steps < 2 ^ 62 }
        requires cost { (host self.old).cost < 2 ^ 62 }
        requires running { (host self.old).current < length (host self.old).statuses }
        ensures { host self.new ≡ ends goal cost (host self.old) }
    {
        self.settle(goal, cost);
        let answer = self.machine.get(8);
        self.set_status(Status::Answered(answer));
    }

    /// It has ended by an error, at a place.
    pub fn fail(&mut self, goal: u32, cost: u32, error: ErrorName, place: Place)
        requires steps { (host self.old).steps < 2 ^ 62 }
        requires cost { (host self.old).cost < 2 ^ 62 }
        requires running { (host self.old).current < length (host self.old).statuses }
        ensures { host self.new ≡ fails goal cost error place (host self.old) }
    {
        self.settle(goal, cost);
        self.set_status(Status::Failed(error, place));
    }
}
