// Laws of activities that are born while a session rests.
ghost use Rattle.plain_births.specs.Births.{BirthsFill, BirthsRest, ContextsHaveRoom, FramesMayFlush, UnitsFitThere, UnitsRest};
ghost use Rattle.plain_births.specs.Meeting.{BirthsMeet, FourAreMost};

/// A law: while a session rests there is room for the unit of each body that has none, and once it is put the session rests for the same state.
pub fn units_rest()
    ensures room { UnitsFitThere }
    ensures unit { UnitsRest }
{}

/// A law: while a session rests, the host's lookup from the lobby tells what a spawned message meets, and why the command is refused where it is.
pub fn births_meet()
    ensures tell { BirthsMeet }
    ensures most { FourAreMost }
{}

/// A law: where the message meets a method whose unit stands, and the host begins its activity, the session rests for the state that the command
/// comes to; before, the frames of the current activity may go to memory, and there is room for the words of a context that can be paid; where it
/// can't, the command is refused.
pub fn births_rest()
    ensures flush { FramesMayFlush }
    ensures room { ContextsHaveRoom }
    ensures begin { BirthsRest }
    ensures full { BirthsFill }
{}
