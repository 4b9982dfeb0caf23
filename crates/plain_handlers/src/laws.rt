// Laws of messages at a trap, and of failures with a handler.
ghost use Rattle.plain_handlers.specs.Handling.{FailuresAreHandled, HandlersAreFound, HandlersFit};
ghost use Rattle.plain_handlers.specs.Messages.{AssignmentsAnswerMessages, DataAnswersMessages, MessagesOverflow, MissingMessagesFail};

/// A law: a primitive that fails and has a handler is a message to that, once its words are in place. What a lookup from the handler finds tells what the
/// message meets, which takes two arguments in a well-formed state.
pub fn failures_are_handled()
    ensures handled { FailuresAreHandled }
    ensures found { HandlersAreFound }
    ensures fits { HandlersFit }
{}

/// A law: where data or an assignment slot answers a message at a trap, the words behind the trap do the source's step.
pub fn messages_are_answered()
    ensures data { DataAnswersMessages }
    ensures assignment { AssignmentsAnswerMessages }
{}

/// A law: a message that meets no slot or more than one, or a method where 4096 activations are there, ends the current activity.
pub fn messages_fail()
    ensures missing { MissingMessagesFail }
    ensures overflow { MessagesOverflow }
{}
