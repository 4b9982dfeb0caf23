// Laws of further names.
ghost use Rattle.plain_names.specs.Growing.{NamesGoOn, SessionsGoOn, SlotsGoOn};

use world_blocks::sessions_have_names;

/// A law: where machine and host rest for a state, they rest for the same state with further names behind
/// its own, which are no evaluators that it lacks, and with which its slots still fit. Slots fit so where
/// each has a name among those before.
pub fn names_go_on()
    ensures rests { NamesGoOn }
    ensures slots { SlotsGoOn }
{}

/// A law: so it is of the state with which a session begins, whose names have all evaluators.
pub fn sessions_go_on()
    ensures { SessionsGoOn }
{
    sessions_have_names();
}
