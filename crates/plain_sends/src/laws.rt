// Laws of sends in plain code.
ghost use Rattle.plain_sends.specs.Found.{HoldersAnswer, ParentsAnswer, ValuesAnswer};
ghost use Rattle.plain_sends.specs.Messages.{SendsMessage};
ghost use Rattle.plain_sends.specs.Sends.{DataAnswers, NodesSend};

/// A law: a node that sends asks for service 1, with the words of its message in place.
pub fn nodes_send()
    ensures { NodesSend }
{}

/// A law: a node that sends has a message at its trap.
pub fn sends_message()
    ensures { SendsMessage }
{}

/// A law: where data answers a message, the words behind the service do the source's step.
pub fn data_answers_sends()
    ensures { DataAnswers }
{}

/// A law: where a lookup over words finds data, from the word of a receiver, above that of a method holder, or through a parent of it, that is
/// what the message meets, and its word.
pub fn lookups_answer()
    ensures receiver { ValuesAnswer }
    ensures above { HoldersAnswer }
    ensures through { ParentsAnswer }
{}
