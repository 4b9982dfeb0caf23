// Laws of methods and blocks that plain code enters.
ghost use Rattle.plain_evaluates.specs.Evaluates.{MethodsAreEntered, BlocksAreEntered};
ghost use Rattle.plain_evaluates.specs.Refusing.{MarksDecide, MethodsAreRefused, BlocksAreRefused};

/// A law: where a message at a trap meets a method, the words of its entry do the source's step.
pub fn methods_are_entered()
    ensures { MethodsAreEntered }
{}

/// A law: where it is for a block, whose context's mark is that of a frame of the activity, and meets the block's own method, so do those of the
/// block's entry.
pub fn blocks_are_entered()
    ensures { BlocksAreEntered }
{}

/// A law: at the trap of a message for a block, the mark of the block's context decides whether its maker's frame is one of the activity's.
pub fn marks_decide()
    ensures { MarksDecide }
{}

/// A law: where the service can't enter what the message meets, the source's step is that error.
pub fn entries_are_refused()
    ensures method { MethodsAreRefused }
    ensures block { BlocksAreRefused }
{}
