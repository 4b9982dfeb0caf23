// Laws of what frames in words show.
ghost use Rattle.shown_frames.specs.Standing.{ActivationsShow, EndedShow, ValuesShow};

/// A law: where frames in words stand for the activations of an activity, the word of a value is shown as the value is, with no frames too where an
/// activity has ended, and the frames are shown as the activations are.
pub fn activations_show()
    ensures values { ValuesShow }
    ensures ended { EndedShow }
    ensures activations { ActivationsShow }
{}
