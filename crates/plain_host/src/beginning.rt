//! A new activity.
ghost use Rattle.plain_host.specs.Hosted.{host};
ghost use Rattle.std.specs.Prelude.{◌≡◌, ◌<◌, ◌≤◌, ◌+◌, ◌*◌, ◌-◌, ◌%◌, ℕ, Some, length, map, slice_get, slice_set};
ghost use Rattle.source_model.specs.Soundness.{body_in};
ghost use Rattle.self_terms.specs.declared.bodies.Local.{Local};
ghost use Rattle.sparc_store.specs.Words.{HasFrame};
ghost use Rattle.sparc_store.specs.Windows.{CanFlush, IsPlace, flushed};
ghost use Rattle.sparc_machine.specs.State.{stack_of, with_stack};
ghost use Rattle.sparc_machine.specs.Held.{state};
ghost use Rattle.plain_words.specs.Moves.{with_words};
ghost use Rattle.plain_words.specs.Translating.{CanTranslate, IsSmallDatum};
ghost use Rattle.plain_words.specs.Units.{datum_word, entry_code, initial_words};
ghost use Rattle.plain_runs.specs.declared.status.Status.TheVariants.{Waiting};
ghost use Rattle.plain_runs.specs.Services.{parked, in_first_frame, filled, begins};
ghost use Rattle.plain_runs.specs.Sound.{entry_frame};

use crate::hosting::{ENDING_STUB, Hosting};
use plain_runs::Status;
use plain_words::{References, entry_words_of, frame_words_of};
use self_terms::{Body, BodyId, Local};
use sparc_machine::Machine;

const STACKS: u32 = 0x4000_0000;

const STACK_STRIDE: u32 = 0x0200_0000;

// From the first address of a stack to its frame of entry.
const ENTRY: u32 = 0x0100_0000;

// Where the frame of entry of a stack begins.
pub(crate) fn entry_frame(k: u32) -> u32
    requires { k < 4 }
    ensures { result ≡ entry_frame k }
{
    STACKS + k * STACK_STRIDE + ENTRY
}

// The local at a number.
pub(crate) fn local_at(locals: &[Local], k: usize) -> Local
    requires { k < length locals.now }
    ensures { slice_get locals.now k ≡ Some result }
{
    match locals.get(k) {
        Some(local) => *local,
        None => unreachable!(),
    }
}

// Stores the initial contents of locals from an address on.
fn put_initials(machine: &mut Machine, references: &References, at: u32, locals: &[Local])
    requires frame { HasFrame at (length locals.now) }
    requires small { (k : ℕ) (x : Local) → slice_get locals.now k ≡ Some x → IsSmallDatum x.initial }
    ensures { state machine.new ≡ record (state machine.old) { memory = with_words (state machine.old).memory at (map (λ x. datum_word references.now x.initial) locals.now) } }
{
    for j in 0..locals.len() {
        let local = local_at(locals, j);
        machine.store(at + 4 * j as u32, references.datum(local.initial));
    }
}

// The frame of a method's activation, filled as the method itself would.
fn fill(machine: &mut Machine, references: &References, body: &Body, place: u32, holder: u32)
    requires frame { HasFrame place 100 }
    requires translates { CanTranslate body.now }
    ensures { state machine.new ≡ record (state machine.old) { memory = filled (state machine.old).memory place holder (initial_words references.now body.now) } }
{
    machine.store(place + 104, holder);
    put_initials(machine, references, place + 108, body.locals.as_slice());
}

// The first frame of a stack is in view.
pub(crate) fn lay_frame(machine: &mut Machine, place: u32, entry: u32, receiver: u32)
    requires { IsPlace place }
    ensures { state machine.new ≡ in_first_frame place entry receiver (state machine.old) }
{
    machine.take_up(place);
    machine.set(16, 0);
    machine.set(17, 0);
    machine.set(24, receiver);
    machine.set(30, entry);
    machine.set(31, ENDING_STUB - 8);
    machine.set(4, 1);
}

#[tactic(auto, unfolding(crate::specs::Hosted::host))]
impl Hosting {
    // The frames of an activity that runs stand in its stack.
    fn put_frames(&mut self)
        requires running { (host self.old).current < length (host self.old).statuses }
        requires flushes { CanFlush (stack_of (host self.old).machine) }
        ensures { host self.new ≡ record (host self.old) { machine = with_stack (host self.old).machine (flushed (stack_of (host self.old).machine)); statuses = slice_set (host self.old).statuses (host self.old).current (Waiting ((host self.old).machine.regs 14) (host self.old).machine.pc ((host self.old).machine.regs 4)) } }
    {
        let sp = self.machine.get(14);
        let pc = self.machine.pc();
        let count = self.machine.get(4);
        self.machine.flush();
        self.set_status(Status::Waiting(sp, pc, count));
    }

    // Those of the current activity do, where it runs.
    pub(crate) fn park(&mut self)
        requires { (sp pc count : ℕ) → slice_get (host self.old).statuses (host self.old).current ≡ Some (Waiting sp pc count) → CanFlush (stack_of (host self.old).machine) }
        ensures { host self.new ≡ parked (host self.old) }
    {
        match self.status(self.current()) {
            Some(Status::Waiting(_, _, _)) => self.put_frames(),
            Some(Status::Answered(_)) => {}
            Some(Status::Failed(_, _)) => {}
            None => {}
        }
    }

    /// Begins an activity of a body without arguments, whose unit stands at an address: its one activation, for this receiver and holder,
    /// is at the poll of its first node, and the activity is the current one.
    pub fn begin(&mut self, b: u32, at: u32, receiver: u32, holder: u32)
        requires given { 0 < b }
        requires within { b ≤ length (host self.old).bodies }
        requires translates { CanTranslate (body_in (host self.old).bodies b) }
        requires room { length (host self.old).statuses < 4 }
        requires code { at ≤ 0x12000000 }
        requires flushes { (sp pc count : ℕ) → slice_get (host self.old).statuses (host self.old).current ≡ Some (Waiting sp pc count) → CanFlush (stack_of (host self.old).machine) }
        ensures { host self.new ≡ begins b at receiver holder (host self.old) }
    {
        self.park();
        let k = self.statuses.len() as u32;
        let entry = entry_frame(k);
        let body = self.world.body(BodyId(b));
        let place = entry - 4 * frame_words_of(body);
        let first = at + 4 * entry_words_of(body);
        fill(&mut self.machine, &self.references, body, place, holder);
        lay_frame(&mut self.machine, place, entry, receiver);
        self.machine.go_to(first);
        self.statuses.push_reserved(Status::Waiting(0, 0, 0));
        self.current = k;
    }
}
