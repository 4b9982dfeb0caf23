// Laws of methods that plain code enters.
ghost use Rattle.plain_enters.specs.Entering.{FilledShows, HasRoom};

/// A law: what the frame of an entered method shows, and that nothing else has changed.
pub fn entered_frames_show()
    ensures { FilledShows }
{}

/// A law: there is room for a frame below the one in view.
pub fn stacks_have_room()
    ensures { HasRoom }
{}
