// Laws of primitives in plain code.
ghost use Rattle.plain_prims.specs.Asking.{PrimitivesAsk};
ghost use Rattle.plain_prims.specs.Failing.{FailuresEnd, FullStoresEnd, RefusalsTell, UnknownFails};
ghost use Rattle.plain_prims.specs.Performing.{AnswersPerform, CostsLeaveRoom, GoalIsLeft, OperandsApply, OperandsStand, SilentStep};
ghost use Rattle.plain_prims.specs.Rows.{EffectsTell, NamesTell};

/// A law: the words of a primitive's node do the source's step, or ask for service 3 with receiver, arguments and handler in place.
pub fn primitives_ask()
    ensures { PrimitivesAsk }
{}

/// A law: a name with so many arguments tells a primitive's row in the table and what it comes to.
pub fn names_tell_rows()
    ensures row { NamesTell }
    ensures effect { EffectsTell }
{}

/// A law: at the trap of a primitive the words of its operands stand for its message over the machine's memory, and may be applied where the heap has
/// room; it has where the plain cost has.
pub fn operands_are_ready()
    ensures stand { OperandsStand }
    ensures apply { OperandsApply }
    ensures room { CostsLeaveRoom }
{}

/// A law: where a primitive has an answer and its cost fits, the words behind the service do the source's step, with what it prints; the goal is what
/// the service left.
pub fn answers_do_steps()
    ensures answer { AnswersPerform }
    ensures goal { GoalIsLeft }
    ensures silent { SilentStep }
{}

/// A law: a primitive that fails without a handler ends the current activity, and so does one that is to make a thing for which no plain cost is left. A
/// name that has no primitive of so many arguments fails; one that was applied and has failed left everything as it was.
pub fn failures_end_activities()
    ensures failure { FailuresEnd }
    ensures full { FullStoresEnd }
    ensures unknown { UnknownFails }
    ensures refusal { RefusalsTell }
{}
