// Laws about what frames show while windows are spilled, filled and flushed.
ghost use Rattle.std.specs.Prelude.{◌≡◌, ◌≢◌, ◌+◌, ◌*◌, ◌/◌, ◌<◌, ◌∷◌, ℕ, suc, All};
ghost use Rattle.sparc_store.specs.Words.{Words, word_at, HasFrame, IsWithin};
ghost use Rattle.sparc_store.specs.Windows.{Stack, saved, restored, flushed, resumed, oldest_at, held_places, CanSave, CanFlush, IsPlace};
ghost use Rattle.sparc_store.specs.Chain.{IsSound, IsStack, IsApart, ChangedIn};
ghost use Rattle.frame_walk.specs.Places.{Descriptor};
ghost use Rattle.frame_moves.specs.Moves.{view_shows, callers_show, saved_show, IsViewLaid, AreCallersLaid, AreSavedLaid, OnlyStacks, OnlyStackOf};

/// A law: a stack is sound whose frames are laid, the one in view first, up to a frame of entry: as many are older than the one in view as
/// are laid, the last of them the frame of entry.
pub fn laid_stacks_are_sound()
    ensures { (descs : ℕ → Descriptor) (entry end n pc : ℕ) (s : Stack) → IsPlace entry → IsViewLaid descs entry end n pc s → IsStack entry n s }
{}

/// A law: behind the frame that SAVE begins, the frames show what they showed, though it may spill the oldest that is held: the caller goes
/// on 8 bytes behind the address in its %o7. It changes no word but those of that one's saved window.
pub fn save_keeps_frames()
    ensures shows { (descs : ℕ → Descriptor) (entry end n : ℕ) (s : Stack) → IsPlace entry → IsSound n s → IsViewLaid descs entry end n (s.regs 15 + 8) s → callers_show descs n (saved s) ≡ view_shows descs n (s.regs 15 + 8) s }
    ensures laid { (descs : ℕ → Descriptor) (entry end n : ℕ) (s : Stack) → IsPlace entry → IsSound n s → IsViewLaid descs entry end n (s.regs 15 + 8) s → AreCallersLaid descs entry end n (saved s) }
    ensures sound { (entry n : ℕ) (s : Stack) → IsSound n s → IsStack entry n s → IsSound (suc n) (saved s) }
    ensures others { (s : Stack) (b : ℕ) → IsWithin s.memory → CanSave s → IsApart b 1 (oldest_at (s.regs 30) s.held) → word_at (saved s).memory b ≡ word_at s.memory b }
    ensures own { (entry n : ℕ) (s : Stack) → IsSound n s → IsStack entry n s → OnlyStackOf entry s.memory (saved s).memory }
    ensures stacks { (s : Stack) → OnlyStacks s.memory (saved s).memory }
{}

/// A law: the frame that RESTORE brings into view, and those behind it, show what they showed behind the frame that is left.
pub fn restore_keeps_frames()
    ensures shows { (descs : ℕ → Descriptor) (m n : ℕ) (s : Stack) → IsSound (suc m) s → view_shows descs n (s.regs 31 + 8) (restored s) ≡ callers_show descs n s }
    ensures laid { (descs : ℕ → Descriptor) (entry end m n : ℕ) (s : Stack) → IsSound (suc m) s → AreCallersLaid descs entry end n s → IsViewLaid descs entry end n (s.regs 31 + 8) (restored s) }
    ensures sound { (entry n : ℕ) (s : Stack) → IsSound (suc n) s → IsStack entry (suc n) s → IsSound n (restored s) }
{}

/// A law: after `flush` the frames show in memory what they showed, and so does the frame that stays in view with those behind it. It changes
/// no word but those of the saved windows of the frames in view and held.
pub fn flush_keeps_frames()
    ensures shows { (descs : ℕ → Descriptor) (entry end n pc : ℕ) (s : Stack) → IsPlace entry → IsSound n s → IsViewLaid descs entry end n pc s → saved_show descs n (s.regs 14) pc (flushed s).memory ≡ view_shows descs n pc s }
    ensures laid { (descs : ℕ → Descriptor) (entry end n pc : ℕ) (s : Stack) → IsPlace entry → IsSound n s → IsViewLaid descs entry end n pc s → AreSavedLaid descs entry end n (s.regs 14) pc (flushed s).memory }
    ensures view_shows { (descs : ℕ → Descriptor) (entry end n pc : ℕ) (s : Stack) → IsPlace entry → IsSound n s → IsViewLaid descs entry end n pc s → view_shows descs n pc (flushed s) ≡ view_shows descs n pc s }
    ensures view_laid { (descs : ℕ → Descriptor) (entry end n pc : ℕ) (s : Stack) → IsPlace entry → IsSound n s → IsViewLaid descs entry end n pc s → IsViewLaid descs entry end n pc (flushed s) }
    ensures sound { (entry n : ℕ) (s : Stack) → IsSound n s → IsStack entry n s → IsSound n (flushed s) }
    ensures others { (s : Stack) (b : ℕ) → IsWithin s.memory → CanFlush s → All (IsApart b 1) (s.regs 14 ∷ held_places (s.regs 30) s.held) → word_at (flushed s).memory b ≡ word_at s.memory b }
    ensures own { (entry n : ℕ) (s : Stack) → IsSound n s → IsStack entry n s → OnlyStackOf entry s.memory (flushed s).memory }
    ensures stacks { (s : Stack) → OnlyStacks s.memory (flushed s).memory }
{}

/// A law: frames that stand in memory show the same once the first is taken up, and is in view.
pub fn take_up_keeps_frames()
    ensures shows { (descs : ℕ → Descriptor) (n at pc : ℕ) (s : Stack) → view_shows descs n pc (resumed s at) ≡ saved_show descs n at pc s.memory }
    ensures laid { (descs : ℕ → Descriptor) (entry end n at pc : ℕ) (s : Stack) → AreSavedLaid descs entry end n at pc s.memory → IsViewLaid descs entry end n pc (resumed s at) }
    ensures sound { (n at : ℕ) (s : Stack) → IsWithin s.memory → IsSound n (resumed s at) }
{}

/// A law: frames of another stack that stand in memory show what they showed, and are laid, wherever words of one stack alone have changed.
pub fn other_stacks_keep_frames(entry: u32, other: u32)
    requires place { IsPlace other }
    requires apart { other / 0x02000000 ≢ entry / 0x02000000 }
    ensures shows { (descs : ℕ → Descriptor) (end m at pc : ℕ) (old new : Words) → OnlyStackOf entry old new → AreSavedLaid descs other end m at pc old → saved_show descs m at pc new ≡ saved_show descs m at pc old }
    ensures laid { (descs : ℕ → Descriptor) (end m at pc : ℕ) (old new : Words) → OnlyStackOf entry old new → AreSavedLaid descs other end m at pc old → AreSavedLaid descs other end m at pc new }
{}

/// A law: memory that has changed in the stacks alone has the same words below them; words that are put in a frame change its stack alone;
/// and so do two changes of one stack.
pub fn stacks_stand_apart()
    ensures low { (old new : Words) (b : ℕ) → OnlyStacks old new → b < 0x40000000 → word_at new b ≡ word_at old b }
    ensures frame { (entry sp words : ℕ) (old new : Words) → HasFrame sp words → sp / 0x02000000 ≡ entry / 0x02000000 → ChangedIn sp (4 * words) old new → OnlyStackOf entry old new }
    ensures both { (entry : ℕ) (a b c : Words) → OnlyStackOf entry a b → OnlyStackOf entry b c → OnlyStackOf entry a c }
{}
