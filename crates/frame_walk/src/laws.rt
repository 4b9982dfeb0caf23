// Laws about the frames of a stack.
ghost use Rattle.std.specs.Prelude.{◌≡◌, ◌+◌, ℕ, List};
ghost use Rattle.sparc_store.specs.Words.{Words};
ghost use Rattle.sparc_store.specs.Windows.{Frame as Window};
ghost use Rattle.frame_walk.specs.Places.{Descriptor};
ghost use Rattle.frame_walk.specs.Walk.{activations, AreLaid, IsFrameOf, SameBetween};

/// A law: what frames show, and that they are laid, rests on the words from where the youngest begins up to the end of the saved words of
/// the frame of entry.
pub fn frames_rest_on_their_words()
    ensures { (descs : ℕ → Descriptor) (entry end : ℕ) (old new : Words) (n sp : ℕ) (window : Window) (pc : ℕ) (held : List Window) → AreLaid (λ q. IsFrameOf (descs q)) entry end old n sp window pc held → SameBetween sp (entry + 64) old new
        → (activations descs new n sp window pc held ≡ activations descs old n sp window pc held) × AreLaid (λ q. IsFrameOf (descs q)) entry end new n sp window pc held }
{}
