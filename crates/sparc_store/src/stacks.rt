// Laws about stacks of frames, of which some are held by windows and the others stand in memory.
ghost use Rattle.std.specs.Prelude.{◌≡◌, ◌≢◌, ◌/◌, ◌≤◌, ◌<◌, ◌+◌, ◌*◌, ◌∷◌, ℕ, zero, suc, [], List, length, All};
ghost use Rattle.sparc_store.specs.Words.{Words, with_word, with_frame, HasFrame, IsWithin};
ghost use Rattle.sparc_store.specs.Windows.{Stack, kept, saved, restored, flushed, resumed};
ghost use Rattle.sparc_store.specs.Chain.{frames_from, places_from, chain, places, IsSound, IsIn, IsStack, IsApart, ChangedIn, with_memory, with_sp};
ghost use Rattle.sparc_store.specs.Flat.{Op, Save, Restore, Flush, May, AllMay, answers, flat_answers, flat_of};

/// A law: the window file answers over any list of calls as a plain list of frames does.
pub fn answers_as_flat()
    ensures { (ops : List Op) → (n : ℕ) → (s : Stack) → IsSound n s → AllMay ops n s → answers ops s ≡ flat_answers ops (flat_of n s) }
{}

/// A law: in a sound stack SAVE, RESTORE and `flush` meet their conditions, and write over no frame that stands in memory.
pub fn stacks_may(entry: u32)
    ensures save { (n : ℕ) → (s : Stack) → IsSound n s → IsStack entry n s → May Save n s }
    ensures restore { (n : ℕ) → (s : Stack) → IsSound n s → IsStack entry n s → 0 < n → May Restore n s }
    ensures flush { (n : ℕ) → (s : Stack) → IsSound n s → IsStack entry n s → May Flush n s }
{}

/// A law: SAVE puts the frame in view in front of the chain, and leaves a sound stack once register 14 is 64 bytes or more lower.
pub fn saves(entry: u32)
    ensures chain { (n : ℕ) → (s : Stack) → IsSound n s → IsStack entry n s → chain (suc n) (saved s) ≡ kept s.regs ∷ chain n s }
    ensures stack { (n : ℕ) → (s : Stack) → (sp : ℕ) → IsSound n s → IsStack entry n s → IsIn entry sp → sp + 64 ≤ s.regs 14 → IsStack entry (suc n) (with_sp sp (saved s)) }
{}

/// A law: RESTORE takes the frame that comes into view off the chain, and leaves a sound stack.
pub fn restores(entry: u32)
    ensures chain { (n : ℕ) → (s : Stack) → IsSound (suc n) s → chain (suc n) s ≡ kept (restored s).regs ∷ chain n (restored s) }
    ensures stack { (n : ℕ) → (s : Stack) → IsStack entry (suc n) s → IsStack entry n (restored s) }
{}

/// A law: `flush` leaves the chain and the registers in view, and holds no older frame; all frames are then read off memory.
pub fn flushes(entry: u32)
    ensures chain { (n : ℕ) → (s : Stack) → IsSound n s → IsStack entry n s → chain n (flushed s) ≡ chain n s }
    ensures stack { (n : ℕ) → (s : Stack) → IsSound n s → IsStack entry n s → IsStack entry n (flushed s) }
    ensures regs { (n : ℕ) → (s : Stack) → IsSound n s → IsStack entry n s → (flushed s).regs ≡ s.regs }
    ensures held { (n : ℕ) → (s : Stack) → IsSound n s → IsStack entry n s → (flushed s).held ≡ [] }
    ensures frames { (n : ℕ) → (s : Stack) → IsSound n s → IsStack entry n s → frames_from (suc n) (flushed s).memory (s.regs 14) [] ≡ kept s.regs ∷ chain n s }
{}

/// A law: `take_up` brings a frame of memory into view, with the frames that are older than it behind it.
pub fn takes_up()
    ensures frames { (n : ℕ) → (at : ℕ) → (s : Stack) → frames_from (suc n) s.memory at [] ≡ kept (resumed s at).regs ∷ chain n (resumed s at) }
    ensures places { (n : ℕ) → (at : ℕ) → (s : Stack) → places_from (suc n) s.memory at [] ≡ (resumed s at).regs 14 ∷ places n (resumed s at) }
{}

/// A law: a write apart from the saved words of the older frames leaves the chain and a sound stack.
pub fn writes(entry: u32)
    ensures chain { (n : ℕ) → (at : ℕ) → (bytes : ℕ) → (s : Stack) → (memory : Words) → ChangedIn at bytes s.memory memory → All (IsApart at bytes) (places n s) → chain n (with_memory memory s) ≡ chain n s }
    ensures stack { (n : ℕ) → (at : ℕ) → (bytes : ℕ) → (s : Stack) → (memory : Words) → ChangedIn at bytes s.memory memory → All (IsApart at bytes) (places n s) → IsStack entry n s → IsStack entry n (with_memory memory s) }
    ensures own { (n : ℕ) → (at : ℕ) → (bytes : ℕ) → (s : Stack) → IsStack entry n s → 0 < n → at + bytes ≤ s.regs 30 → All (IsApart at bytes) (places n s) }
    ensures low { (n : ℕ) → (at : ℕ) → (bytes : ℕ) → (s : Stack) → IsStack entry n s → at + bytes ≤ 0x40000000 → All (IsApart at bytes) (places n s) }
    ensures word { (memory : Words) → (at : ℕ) → (w : ℕ) → ChangedIn at 4 memory (with_word memory at w) }
    ensures frame { (memory : Words) → (at : ℕ) → (ws : List ℕ) → IsWithin memory → HasFrame at (length ws) → ChangedIn at (4 * length ws) memory (with_frame memory at ws) }
{}

/// A law: SAVE and `flush` leave the frames of each other stack in memory as they were.
pub fn spares_others(entry: u32, other: u32)
    requires { other / 0x02000000 ≢ entry / 0x02000000 }
    ensures save { (n : ℕ) → (m : ℕ) → (at : ℕ) → (s : Stack) → IsSound n s → IsStack entry n s → All (IsIn other) (places_from m s.memory at []) → frames_from m (saved s).memory at [] ≡ frames_from m s.memory at [] }
    ensures flush { (n : ℕ) → (m : ℕ) → (at : ℕ) → (s : Stack) → IsSound n s → IsStack entry n s → All (IsIn other) (places_from m s.memory at []) → frames_from m (flushed s).memory at [] ≡ frames_from m s.memory at [] }
{}

/// A law: how many frames a sound stack has is known by where its frame of entry begins.
pub fn has_one_depth(entry: u32)
    ensures { (n : ℕ) → (m : ℕ) → (s : Stack) → IsStack entry n s → IsStack entry m s → n ≡ m }
{}
