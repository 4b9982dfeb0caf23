// Laws of what runs leave.
ghost use Rattle.run_keeps.specs.Keeping.{StepsKeep, RunsKeep, FinishesKeep, CommandsKeep, AdvisorsOnly, AdvisorsAlone, EditsKeepAdvisors};

/// A law: the size, the number of accepted edits and the number of advisors that are left stay in each
/// step, run, `finish` and command but `edit` and `advisor`; `advisor` changes nothing of a state but the
/// number of advisors, which doesn't grow; and `edit` leaves that number.
pub fn counts_stay()
    ensures steps_keep { StepsKeep }
    ensures runs_keep { RunsKeep }
    ensures finishes_keep { FinishesKeep }
    ensures commands_keep { CommandsKeep }
    ensures advisors_only { AdvisorsOnly }
    ensures advisors_alone { AdvisorsAlone }
    ensures edits_keep_advisors { EditsKeepAdvisors }
{}
