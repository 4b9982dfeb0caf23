// Laws of turns.
ghost use Rattle.plain_turns.specs.Handlers.{FailuresAsk, HandlersAnswer, HandlersAreRead, HandlersAssignNothing, HandlersMeetMethods, HandlersMiss};
ghost use Rattle.plain_turns.specs.Primitives.{AnswersTurn, FailuresEnd, FailuresKeep, FullsEnd, PrimitivesAsk, PrimitivesMayApply, UndefinedEnd};
ghost use Rattle.plain_turns.specs.Turns.{AnswersEnd, AssignmentsTurn, CallsTurn, DataTurns, FieldsAreRead, GoalsEnd, MarksMayBeTested, MessagesAsk, MethodsAreThere, MissesEnd, ObjectsCount, RefusalsEnd, ReturnsTurn, RunsBegin, RunsCome, StoresFill, TrapsTell, UnitsFit, UnitsTurn};

/// A law: a run begins at the poll at which the current activity rests.
pub fn runs_begin()
    ensures { RunsBegin }
{}

/// A law: the machine's run comes to a trap, and what is so there.
pub fn runs_come()
    ensures come { RunsCome }
    ensures tell { TrapsTell }
    ensures objects { ObjectsCount }
{}

/// A law: a run ends where its goal is met, where the oldest activation answers, and where a block can't be paid.
pub fn runs_end()
    ensures goal { GoalsEnd }
    ensures answer { AnswersEnd }
    ensures full { StoresFill }
{}

/// A law: a return from a home method leads on in the home's caller, or ends the run.
pub fn returns_turn()
    ensures { ReturnsTurn }
{}

/// A law: a message leads on where data, an assignment slot or a method with a unit answers it, and from its beginning where a unit is put; it ends
/// the run where nothing does, and where the method is refused.
pub fn messages_turn()
    ensures asked { MessagesAsk }
    ensures fields { FieldsAreRead }
    ensures data { DataTurns }
    ensures assignment { AssignmentsTurn }
    ensures missing { MissesEnd }
    ensures there { MethodsAreThere }
    ensures room { UnitsFit }
    ensures unit { UnitsTurn }
{}

/// A law: a method that a message meets is called, or refused.
pub fn methods_turn()
    ensures mark { MarksMayBeTested }
    ensures method { CallsTurn }
    ensures refused { RefusalsEnd }
{}

/// A law: a primitive that was applied leads on where it has answered, and ends the run where it has failed or isn't defined and has no handler, and
/// where it can't be paid.
pub fn primitives_turn()
    ensures asked { PrimitivesAsk }
    ensures undefined { UndefinedEnd }
    ensures may { PrimitivesMayApply }
    ensures full { FullsEnd }
    ensures kept { FailuresKeep }
    ensures failure { FailuresEnd }
    ensures answer { AnswersTurn }
{}

/// A law: the message of a failed primitive to its handler leads on where data or a method with a unit answers it, and from the node's beginning where a
/// unit is put; it ends the run where nothing does, and where the method is refused. No assignment slot answers it.
pub fn handlers_turn()
    ensures asked { FailuresAsk }
    ensures fields { HandlersAreRead }
    ensures none { HandlersAssignNothing }
    ensures data { HandlersAnswer }
    ensures missing { HandlersMiss }
    ensures method { HandlersMeetMethods }
{}
