// Laws of runs of plain code.
ghost use Rattle.plain_stretches.specs.Polls.{PollsPass, PollsStop};
ghost use Rattle.plain_stretches.specs.Runs.{TrapsStop};
ghost use Rattle.plain_stretches.specs.Standing.{AnswersGoOn, EndsSettle, HostsSettle, PollsWait, StepsGoOn};
ghost use Rattle.plain_stretches.specs.Stretches.{PollsStretch, PrintsStretch, RunsJoin, StepJoins, StepsStretch, StretchesRun};

/// A law: where a machine goes on to a trap, a run of more instructions may be made, and tells of that trap.
pub fn goes_to_traps()
    ensures { TrapsStop }
{}

/// A law: a poll asks for service 2 where nothing is left of the goal, and else leads to the node behind it.
pub fn polls_tell()
    ensures stop { PollsStop }
    ensures pass { PollsPass }
{}

/// A law: a step in words leads to a poll, with one step less left of the goal, and so does a send that data answers, with a new goal; and where
/// nothing is left, service 2 leads to the same poll, with a new goal.
pub fn polls_come_again()
    ensures step { StepsGoOn }
    ensures answer { AnswersGoOn }
    ensures wait { PollsWait }
{}

/// A law: settling its counts leaves a host sound; and where an activity has ended by service 9, machine and host stand for the same state then.
pub fn ends_settle()
    ensures host { HostsSettle }
    ensures answer { EndsSettle }
{}

/// A law: from the poll of a node, words do so many of the source's steps and come to a trap, as the machine's run does; and so from behind a service
/// whose words do a step, as that of a send that data answers, or of a primitive that prints.
pub fn words_stretch()
    ensures poll { PollsStretch }
    ensures step { StepsStretch }
    ensures print { PrintsStretch }
    ensures run { StretchesRun }
{}

/// A law: runs of the source join.
pub fn runs_join()
    ensures run { RunsJoin }
    ensures step { StepJoins }
{}
