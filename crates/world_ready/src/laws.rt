// What holds of the world of an accepted text before a session begins over it.
ghost use Rattle.world_ready.specs.Ready.{EvaluatorsTaken, FailureTaken, NamesGoOn, NamesStartFixed, NamesStayFixed, SessionsBegin, UnitsHaveRoom};

/// A law: the names of the world of an accepted text start with the two fixed ones, where those alone were given before the text.
pub fn names_start_fixed()
    ensures { NamesStartFixed }
{}

/// A law: the names of a session over a world are those of the world, and maybe some behind them.
pub fn names_go_on()
    ensures { NamesGoOn }
{}

/// A law: there the messages that evaluate blocks of up to five arguments have numbers, and take as many.
pub fn evaluators_are_taken()
    ensures { EvaluatorsTaken }
{}

/// A law: so does `value:With:`, which a failed primitive sends.
pub fn failure_is_taken()
    ensures { FailureTaken }
{}

/// A law: so a session over the world of a text within the limits begins with a well-formed state.
pub fn sessions_begin()
    ensures { SessionsBegin }
{}

/// A law: names that start with the two fixed ones still do so with those of a session.
pub fn names_stay_fixed()
    ensures { NamesStayFixed }
{}

/// A law: the code region has room for units of all bodies of the world of a text within the limits.
pub fn units_have_room()
    ensures { UnitsHaveRoom }
{}
