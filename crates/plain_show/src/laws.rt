// Laws of what is shown of stacks.
ghost use Rattle.plain_show.specs.Showing.{FlushedStay, StacksShow};

/// A law: where machine and host stand for a state, what is shown of the current activity is what the source shows of its activations; and once its
/// frames are saved, machine and host show what they showed, and go on as they did.
pub fn stacks_show()
    ensures stacks { StacksShow }
    ensures flushed { FlushedStay }
{}
