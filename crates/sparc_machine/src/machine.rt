// The machine, and what the host may do to it.
ghost use Rattle.std.specs.Prelude.{◌≡◌, ◌<◌, ◌≤◌, ◌%◌, ◌+◌, ◌^◌, ◌↔◌, ℕ, List, length, IsTrue};
ghost use Rattle.std.specs.Borrow.{sem};
ghost use Rattle.sparc_store.specs.Words.{word_at, with_word, byte_at, with_byte, HasWord, HasByte, HasFrame, with_frame, Framed};
ghost use Rattle.sparc_store.specs.Windows.{CanSave, CanRestore, CanFlush, flushed, IsPlace, resumed};
ghost use Rattle.sparc_machine.specs.State.{IsWhole, opened, put, in_new_frame, in_older_frame, stack_of, with_stack};
ghost use Rattle.sparc_machine.specs.Table.{went, transferred, jumped};
ghost use Rattle.sparc_machine.specs.Held.{state};
ghost use Rattle.sparc_machine.specs.Frame.{LendsFrame, LendsMemory};

use crate::icc::Icc;
use sparc_store::{Memory, Windows};
use std::marker::Model;

/// A SPARC V8 machine of one activity: its memory, its registers in frames, the program counter and the next one, Y and the
/// condition codes. Words are `u32`; addresses are in bytes.
#[derive(Drop)]
pub struct Machine {
    memory: Memory,
    windows: Windows,
    pc: u32,
    npc: u32,
    y: u32,
    icc: Icc,
}

impl Model for Machine {
    ghost use Rattle.sparc_machine.specs.Held.{Held};

    ghost Value = { Held };

    ghost view = { λ m. record { memory = m.memory; windows = m.windows; pc = m.pc; npc = m.npc; y = m.y; icc = m.icc } };
}

#[tactic(auto, unfolding(crate::specs::Held::state))]
impl Machine {
    /// A machine over this memory with one frame, whose registers are all 0. It stands at address 0, Y is 0 and the condition
    /// codes are clear.
    pub fn open(memory: Memory) -> Machine
        ensures { state result ≡ opened memory }
    {
        Machine {
            memory,
            windows: Windows::open(),
            pc: 0,
            npc: 4,
            y: 0,
            icc: Icc {
                negative: false,
                zero: false,
                overflow: false,
                carry: false,
            },
        }
    }

    /// A law of every machine: register 0 is 0, each register is a word, and there is room for each frame.
    pub fn is_whole(&self)
        ensures { IsWhole (state self.now) }
    {
        self.windows.are_words();
        self.memory.within();
        let _special = (self.pc(), self.npc(), self.y());
    }

    /// The register of this number, from 0 to 31, in the frame in view.
    #[inline]
    pub fn get(&self, register: u8) -> u32
        requires { register < 32 }
        ensures { result ≡ (state self.now).regs register }
    {
        self.windows.get(register)
    }

    /// Puts a word into a register; register 0 takes none.
    #[inline]
    pub fn set(&mut self, register: u8, word: u32)
        requires { register < 32 }
        ensures { state self.new ≡ put (state self.old) register word }
    {
        self.windows.set(register, word);
    }

    /// The address of the next instruction.
    #[inline]
    pub fn pc(&self) -> u32
        ensures { result ≡ (state self.now).pc }
    {
        self.pc
    }

    /// The address of the instruction after the next one.
    #[inline]
    pub fn npc(&self) -> u32
        ensures { result ≡ (state self.now).npc }
    {
        self.npc
    }

    /// Goes on at an address.
    pub fn go_to(&mut self, at: u32)
        requires { at + 4 < 2 ^ 32 }
        ensures { state self.new ≡ record (state self.old) { pc = at; npc = at + 4 } }
    {
        self.pc = at;
        self.npc = at + 4;
    }

    /// The memory.
    pub fn memory(&self) -> &Memory
        ensures { result.now ≡ (state self.now).memory }
    {
        &self.memory
    }

    /// The word at an address of a region that 4 divides.
    #[inline]
    pub fn load(&self, at: u32) -> u32
        requires { HasWord at }
        ensures { result ≡ word_at (state self.now).memory at }
    {
        self.memory.load(at)
    }

    // The word at an address of the code region.
    #[inline]
    pub(crate) fn load_code(&self, at: u32) -> u32
        requires aligned { at % 4 ≡ 0 }
        requires from { 0x10000000 ≤ at }
        requires to { at < 0x12000000 }
        ensures { result ≡ word_at (state self.now).memory at }
    {
        self.memory.load_code(at)
    }

    /// Puts a word at an address of a region that 4 divides.
    #[inline]
    pub fn store(&mut self, at: u32, word: u32)
        requires { HasWord at }
        ensures { state self.new ≡ record (state self.old) { memory = with_word (state self.old).memory at word } }
    {
        self.memory.store(at, word);
    }

    /// The byte at an address of a region.
    #[inline]
    pub fn load_byte(&self, at: u32) -> u8
        requires { HasByte at }
        ensures { result ≡ byte_at (state self.now).memory at }
    {
        self.memory.load_byte(at)
    }

    /// Puts a byte at an address of a region.
    #[inline]
    pub fn store_byte(&mut self, at: u32, byte: u8)
        requires { HasByte at }
        ensures { state self.new ≡ record (state self.old) { memory = with_byte (state self.old).memory at byte } }
    {
        self.memory.store_byte(at, byte);
    }

    /// Lends so many words from an address of a stack on, to be written; they lie in that one stack. Nothing else of the machine
    /// changes.
    pub fn frame_mut(&mut self, at: u32, words: u32) -> &mut [u32]
        requires { HasFrame at words }
        ensures* writes_back { sem 𝓛 (LendsFrame self.entry at result) }
        ensures len { length result.now ≡ words }
        ensures framed { (ws : List ℕ) → length ws ≡ words →
            Framed (state self.old).memory (with_frame (state self.old).memory at ws) at ws }
    {
        self.memory.frame_mut(at, words)
    }

    /// Lends the memory, to be written. Nothing else of the machine changes.
    pub fn memory_mut(&mut self) -> &mut Memory
        ensures* writes_back { sem 𝓛 (LendsMemory self.entry result) }
        ensures value { result.now ≡ (state self.old).memory }
    {
        &mut self.memory
    }

    /// Whether a SAVE may be done: there is room for a frame, or the oldest that is held begins at a place in a stack.
    pub fn can_save(&self) -> bool
        ensures { IsTrue result ↔ CanSave (stack_of (state self.now)) }
    {
        self.windows.can_save()
    }

    /// Whether a RESTORE may be done: an older frame is held, or register 30 names a place in a stack.
    pub fn can_restore(&self) -> bool
        ensures { IsTrue result ↔ CanRestore (stack_of (state self.now)) }
    {
        self.windows.can_restore()
    }

    /// Enters a new frame: its ins are the outs of the one in view, its locals and outs are 0. Where seven frames are held, the
    /// oldest is saved first.
    #[inline]
    pub fn enter_frame(&mut self)
        requires { CanSave (stack_of (state self.old)) }
        ensures { state self.new ≡ in_new_frame (state self.old) }
    {
        self.windows.save(&mut self.memory);
    }

    /// Goes back to the youngest of the older frames, whose outs are the ins of the one in view; where it isn't held, it is filled
    /// from register 30.
    #[inline]
    pub fn leave_frame(&mut self)
        requires { CanRestore (stack_of (state self.old)) }
        ensures { state self.new ≡ in_older_frame (state self.old).older (state self.old) }
    {
        self.windows.restore(&self.memory);
    }

    /// Saves all frames that are held, and holds the one in view alone.
    pub fn flush(&mut self)
        requires { CanFlush (stack_of (state self.old)) }
        ensures { state self.new ≡ with_stack (state self.old) (flushed (stack_of (state self.old))) }
    {
        self.windows.flush(&mut self.memory);
    }

    /// Takes up a frame from where it begins in memory, in place of all that are held.
    pub fn take_up(&mut self, at: u32)
        requires { IsPlace at }
        ensures { state self.new ≡ with_stack (state self.old) (resumed (stack_of (state self.old)) at) }
    {
        self.windows.take_up(&self.memory, at);
    }

    /// The register Y.
    #[inline]
    pub fn y(&self) -> u32
        ensures { result ≡ (state self.now).y }
    {
        self.y
    }

    /// Puts a word into Y.
    #[inline]
    pub fn set_y(&mut self, word: u32)
        ensures { state self.new ≡ record (state self.old) { y = word } }
    {
        self.y = word;
    }

    /// The condition codes.
    #[inline]
    pub fn icc(&self) -> Icc
        ensures { result ≡ (state self.now).icc }
    {
        self.icc
    }

    // The condition codes, to be read one by one.
    #[inline]
    pub(crate) fn icc_now(&self) -> &Icc
        ensures { result.now ≡ (state self.now).icc }
    {
        &self.icc
    }

    /// Puts other condition codes in place of those there.
    #[inline]
    pub fn set_icc(&mut self, icc: Icc)
        ensures { state self.new ≡ record (state self.old) { icc = icc } }
    {
        self.icc = icc;
    }

    // On to the next instruction.
    #[inline]
    pub(crate) fn go_on(&mut self)
        ensures { state self.new ≡ went (state self.old) }
    {
        self.pc = self.npc;
        self.npc = self.npc.wrapping_add(4);
    }

    // To a target, after the instruction in the delay place.
    #[inline]
    pub(crate) fn transfer(&mut self, target: u32)
        ensures { state self.new ≡ transferred target (state self.old) }
    {
        self.pc = self.npc;
        self.npc = target;
    }

    // To a target at once.
    #[inline]
    pub(crate) fn jump(&mut self, target: u32)
        ensures { state self.new ≡ jumped target (state self.old) }
    {
        self.pc = target;
        self.npc = target.wrapping_add(4);
    }
}
