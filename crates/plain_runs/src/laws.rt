// Laws about plain code under its host.
ghost use Rattle.plain_runs.specs.Course.{PendedFollows, DroppedFollows, AnswerFollows};

/// A law: where the words of a node do what it does, machine and host show the next raw state, at the poll of the next node.
pub fn nodes_go_on()
    ensures pended { PendedFollows }
    ensures dropped { DroppedFollows }
    ensures answered { AnswerFollows }
{}
