//! Primitives, by service 3.
ghost use Rattle.plain_host.specs.Hosted.{host};
ghost use Rattle.std.specs.Prelude.{◌≡◌, ◌⊎◌, ◌<◌, ◌≤◌, ◌+◌, ◌^◌, ℕ, List};
ghost use Rattle.heap_cells.specs.Heaps.{IsHeap};
ghost use Rattle.heap_cells.specs.Laying.{Cells};
ghost use Rattle.heap_cells.specs.Source.{Made};
ghost use Rattle.heap_cells.specs.Standing.{AreValues, IsValue, Places};
ghost use Rattle.object_maps.specs.declared.layout.Heap.{Heap};
ghost use Rattle.prim_table.specs.Answers.{CanApply, HasCore, IsAnswer, cost};
ghost use Rattle.prim_table.specs.Operands.{Operand};
ghost use Rattle.self_terms.specs.declared.values.Value.{Value};
ghost use Rattle.source_model.specs.Primitives.{apply};
ghost use Rattle.source_model.specs.State.{State};
ghost use Rattle.sparc_store.specs.Words.{word_at};
ghost use Rattle.plain_words.specs.Moves.{registers_from};
ghost use Rattle.plain_runs.specs.Course.{with_machine};
ghost use Rattle.plain_prims.specs.Services.{heap_of, performs};
ghost use Rattle.plain_handlers.specs.Handling.{hands_over};

use crate::hosting::Hosting;
use object_maps::Heap;
use prim_costs::words_taken;
use prim_table::{CoreWords, PrimAnswer, apply};
use source_model::Primitive;

/// What a primitive that was applied answers, and the top of the heap and the next object's number after it.
#[derive(Clone, Copy, Drop)]
pub struct Applied {
    pub answer: PrimAnswer,
    pub heap: Heap,
}

#[tactic(auto, unfolding(crate::specs::Hosted::host))]
impl Hosting {
    /// The top of the heap and the next object's number.
    pub fn heap(&self) -> Heap
        ensures { result ≡ heap_of (host self.now) }
    {
        Heap {
            top: self.machine.get(6),
            next: self.next,
        }
    }

    /// How many words of plain cost a primitive takes, applied to a receiver.
    pub fn words_taken(&self, prim: Primitive, receiver: u32) -> u32
        requires { (heap : Heap) × Operand (host self.now).maps (host self.now).machine.memory heap receiver }
        ensures { (heap : Heap) (h : Cells) (p : Places) (made : List Made) (s : State) (v : Value) (vs : List Value) → IsHeap (host self.now).maps (host self.now).machine.memory heap h p s.things made → IsValue h p v receiver → result ≡ cost (apply s prim v vs) }
    {
        words_taken(&self.maps, self.machine.memory(), prim, receiver)
    }

    // Applies a primitive to the words of a receiver and its arguments. Nothing but memory changes, and of that the words of the heap alone.
    fn apply_primitive(
        &mut self,
        core: CoreWords,
        prim: Primitive,
        receiver: u32,
        args: &[u32],
    ) -> Applied
        requires stands { CanApply (host self.old).maps core (host self.old).machine.memory (heap_of (host self.old)) prim receiver args.now }
        requires few { (host self.old).next < 500000000 }
        ensures same { host self.new ≡ with_machine (host self.old) (record (host self.old).machine { memory = (host self.new).machine.memory }) }
        ensures answer { (h : Cells) (p : Places) (made : List Made) (s : State) (v : Value) (vs : List Value) → IsHeap (host self.old).maps (host self.old).machine.memory (heap_of (host self.old)) h p s.things made → HasCore h p s.core core
            → IsValue h p v receiver → AreValues h p vs args.now → IsAnswer (host self.old).maps (host self.old).machine.memory (host self.new).machine.memory (heap_of (host self.old)) result.heap h p s.things made receiver result.answer (apply s prim v vs) }
        ensures outside { (b : ℕ) → (b < 0x20000000) ⊎ (result.heap.top ≤ b) → word_at (host self.new).machine.memory b ≡ word_at (host self.old).machine.memory b }
    {
        let mut heap = self.heap();
        let memory = self.machine.memory_mut();
        let answer = apply(&self.maps, core, memory, &mut heap, prim, receiver, args);
        Applied { answer, heap }
    }

    /// Applies a primitive whose receiver is in %o0, and its arguments, so many, from %o1 on.
    pub fn apply_asked(&mut self, core: CoreWords, prim: Primitive, count: usize) -> Applied
        requires stands { CanApply (host self.old).maps core (host self.old).machine.memory (heap_of (host self.old)) prim ((host self.old).machine.regs 8) (registers_from (host self.old).machine.regs 9 count) }
        requires few { (host self.old).next < 500000000 }
        requires count { count ≤ 5 }
        ensures same { host self.new ≡ with_machine (host self.old) (record (host self.old).machine { memory = (host self.new).machine.memory }) }
        ensures answer { (h : Cells) (p : Places) (made : List Made) (s : State) (v : Value) (vs : List Value) → IsHeap (host self.old).maps (host self.old).machine.memory (heap_of (host self.old)) h p s.things made → HasCore h p s.core core
            → IsValue h p v ((host self.old).machine.regs 8) → AreValues h p vs (registers_from (host self.old).machine.regs 9 count)
            → IsAnswer (host self.old).maps (host self.old).machine.memory (host self.new).machine.memory (heap_of (host self.old)) result.heap h p s.things made ((host self.old).machine.regs 8) result.answer (apply s prim v vs) }
        ensures outside { (b : ℕ) → (b < 0x20000000) ⊎ (result.heap.top ≤ b) → word_at (host self.new).machine.memory b ≡ word_at (host self.old).machine.memory b }
    {
        let receiver = self.machine.get(8);
        let outs = [
            self.machine.get(9),
            self.machine.get(10),
            self.machine.get(11),
            self.machine.get(12),
            self.machine.get(13),
        ];
        self.apply_primitive(core, prim, receiver, &outs[..count])
    }

    /// A primitive that was applied has answered a word, and has taken so many words of plain cost.
    pub fn perform(&mut self, goal: u32, left: u32, heap: Heap, words: u32, word: u32)
        requires steps { (host self.old).steps < 2 ^ 62 }
        requires cost { (host self.old).cost < 2 ^ 62 }
        requires on { (host self.old).machine.npc + 4 < 2 ^ 32 }
        ensures { host self.new ≡ performs goal left (host self.old).machine.memory heap words word (host self.old) }
    {
        let _spent = self.machine.get(3);
        self.settle(goal, left);
        self.machine.set(6, heap.top);
        self.machine.set(8, word);
        self.next = heap.next;
        self.cost += words as u64;
        self.pass();
    }

    /// The message of a failure stands in the outs: to a handler, with the strings of the error and of the primitive.
    pub fn hand_over(&mut self, handler: u32, error: u32, primitive: u32)
        ensures { host self.new ≡ with_machine (host self.old) (hands_over handler error primitive (host self.old).machine) }
    {
        self.machine.set(8, handler);
        self.machine.set(9, error);
        self.machine.set(10, primitive);
    }
}
