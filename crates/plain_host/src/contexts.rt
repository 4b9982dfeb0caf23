//! Activations with contexts: an activity that begins with one; and whether the maker of a block runs in the current activity.
ghost use Rattle.plain_host.specs.Hosted.{host};
ghost use Rattle.std.specs.Prelude.{◌≡◌, ◌<◌, ◌≤◌, ◌+◌, ◌*◌, ◌-◌, ◌^◌, ◌∷◌, ℕ, Some, length, map, slice_get};
ghost use Rattle.source_model.specs.Soundness.{body_in};
ghost use Rattle.self_terms.specs.declared.bodies.Local.{Local};
ghost use Rattle.sparc_store.specs.Words.{word_at, HasFrame};
ghost use Rattle.sparc_store.specs.Windows.{CanFlush};
ghost use Rattle.sparc_machine.specs.State.{stack_of};
ghost use Rattle.sparc_machine.specs.Held.{state};
ghost use Rattle.plain_words.specs.Moves.{HasRoom, IsContext, with_words};
ghost use Rattle.plain_words.specs.Translating.{CanTranslate, IsSmallDatum};
ghost use Rattle.plain_words.specs.Units.{datum_word, initial_words, numbered};
ghost use Rattle.plain_runs.specs.declared.status.Status.TheVariants.{Waiting};
ghost use Rattle.plain_runs.specs.Services.{parked, in_first_frame};
ghost use Rattle.plain_evaluates.specs.Refusing.{is_live};
ghost use Rattle.plain_spawns.specs.Spawns.{begins_with_context, with_context};
ghost use Rattle.plain_host.specs.Started.{context_of, started};

use crate::beginning::{entry_frame, lay_frame, local_at};
use crate::hosting::Hosting;
use plain_runs::Status;
use plain_words::{References, entry_words_of, frame_words_of};
use self_terms::{Body, BodyId, Local};
use sparc_machine::Machine;

const STACK_STRIDE: u32 = 0x0200_0000;

// Stores the initial contents of locals in the heap, from an address on.
fn put_locals(machine: &mut Machine, references: &References, at: u32, locals: &[Local])
    requires room { HasRoom at (length locals.now) }
    requires small { (k : ℕ) (x : Local) → slice_get locals.now k ≡ Some x → IsSmallDatum x.initial }
    ensures { state machine.new ≡ record (state machine.old) { memory = with_words (state machine.old).memory at (map (λ x. datum_word references.now x.initial) locals.now) } }
{
    for j in 0..locals.len() {
        let local = local_at(locals, j);
        machine.store(at + 4 * j as u32, references.datum(local.initial));
    }
}

// Puts the context of an activation of a method at the heap's top, with the mark of its frame.
fn put_context(
    machine: &mut Machine,
    references: &References,
    body: &Body,
    place: u32,
    receiver: u32,
)
    requires room { HasRoom ((state machine.old).regs 6) (4 + length body.now.locals) }
    requires translates { CanTranslate body.now }
    ensures { state machine.new ≡ record (state machine.old) { memory = with_words (state machine.old).memory ((state machine.old).regs 6) (numbered references.now.contexts ∷ 0 ∷ place ∷ receiver ∷ initial_words references.now body.now) } }
{
    let top = machine.get(6);
    machine.store(top, references.contexts.wrapping_mul(4));
    machine.store(top + 4, 0);
    machine.store(top + 8, place);
    machine.store(top + 12, receiver);
    put_locals(machine, references, top + 16, body.locals.as_slice());
}

// A context of so many words at the heap's top is the own one of the frame in view.
fn count_context(machine: &mut Machine, words: u32)
    requires some { 0 < words }
    requires top { (state machine.old).regs 6 + 4 * words < 2 ^ 32 }
    requires cost { (state machine.old).regs 3 + words < 2 ^ 32 }
    ensures { state machine.new ≡ with_context words (state machine.old) }
{
    let top = machine.get(6);
    let cost = machine.get(3);
    machine.set(17, top + 1);
    machine.set(6, top + 4 * words);
    machine.set(3, cost + words);
}

// The first frame of a stack is in view, and keeps the holder; the context of its activation is put at the heap's top; and the code goes on at an
// address.
fn start(
    machine: &mut Machine,
    references: &References,
    body: &Body,
    place: u32,
    entry: u32,
    receiver: u32,
    holder: u32,
    first: u32,
)
    requires frame { HasFrame place 100 }
    requires room { HasRoom ((state machine.old).regs 6) (4 + length body.now.locals) }
    requires cost { (state machine.old).regs 3 + 4 + length body.now.locals < 2 ^ 32 }
    requires translates { CanTranslate body.now }
    requires code { first + 4 < 2 ^ 32 }
    ensures { state machine.new ≡ started first (length (context_of references.now body.now place receiver)) entry place receiver holder (context_of references.now body.now place receiver) (state machine.old) }
{
    let words = 4 + body.locals.as_slice().len() as u32;
    put_context(machine, references, body, place, receiver);
    machine.store(place + 104, holder);
    lay_frame(machine, place, entry, receiver);
    count_context(machine, words);
    machine.go_to(first);
}

#[tactic(auto, unfolding(crate::specs::Hosted::host))]
impl Hosting {
    /// Whether the maker of the block in %o0 runs in the current activity.
    pub fn is_live(&self) -> bool
        requires block { IsContext ((host self.now).machine.regs 8) 0 }
        requires context { IsContext (word_at (host self.now).machine.memory ((host self.now).machine.regs 8 + 7)) 0 }
        ensures { result ≡ is_live (host self.now).machine }
    {
        let block = self.machine.get(8);
        let context = self.machine.load(block + 7);
        let mark = self.machine.load(context + 7);
        mark != 0 && mark / STACK_STRIDE == self.machine.get(14) / STACK_STRIDE
    }

    // The frames of the current activity stand in its stack, where it runs, and all registers are as they were.
    fn park_in_stack(&mut self)
        requires { (sp pc count : ℕ) → slice_get (host self.old).statuses (host self.old).current ≡ Some (Waiting sp pc count) → CanFlush (stack_of (host self.old).machine) }
        ensures parks { host self.new ≡ parked (host self.old) }
        ensures registers { (host self.new).machine.regs ≡ (host self.old).machine.regs }
    {
        self.park();
    }

    /// Begins an activity of a body without arguments, whose activations have contexts and whose unit stands at an address: its one activation,
    /// for this receiver and holder, is at the poll of its first node, its context is put at the heap's top, and the activity is the current one.
    pub fn begin_with_context(&mut self, b: u32, at: u32, receiver: u32, holder: u32)
        requires given { 0 < b }
        requires within { b ≤ length (host self.old).bodies }
        requires translates { CanTranslate (body_in (host self.old).bodies b) }
        requires room { length (host self.old).statuses < 4 }
        requires code { at ≤ 0x12000000 }
        requires flushes { (sp pc count : ℕ) → slice_get (host self.old).statuses (host self.old).current ≡ Some (Waiting sp pc count) → CanFlush (stack_of (host self.old).machine) }
        requires heap { HasRoom ((host self.old).machine.regs 6) (4 + length (body_in (host self.old).bodies b).locals) }
        requires cost { (host self.old).machine.regs 3 + 4 + length (body_in (host self.old).bodies b).locals < 2 ^ 32 }
        ensures { host self.new ≡ begins_with_context b at receiver holder (host self.old) }
    {
        self.park_in_stack();
        let k = self.statuses.len() as u32;
        let entry = entry_frame(k);
        let body = self.world.body(BodyId(b));
        let place = entry - 4 * frame_words_of(body);
        let first = at + 4 * entry_words_of(body);
        start(
            &mut self.machine,
            &self.references,
            body,
            place,
            entry,
            receiver,
            holder,
            first,
        );
        self.statuses.push_reserved(Status::Waiting(0, 0, 0));
        self.current = k;
    }
}
