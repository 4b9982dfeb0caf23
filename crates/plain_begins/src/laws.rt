// Laws of activities that begin in plain code.
ghost use Rattle.plain_begins.specs.Begins.{RawBegins, ActivitiesAgree, ActivitiesBegin};

/// A law: over raw activations, an activity of one activation more stands for the state with the new activity.
pub fn raw_activities_begin()
    ensures { RawBegins }
{}

/// A law: machine and host that stand for a state have as many activities as the state.
pub fn activities_agree()
    ensures { ActivitiesAgree }
{}

/// A law: where the current activity is at a poll or none runs, the host begins an activity of a method: machine and host then stand for the
/// state that the source enters, at the poll of the method's first node.
pub fn activities_begin()
    ensures { ActivitiesBegin }
{}
