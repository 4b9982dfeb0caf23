// Laws of activities that begin with a context.
ghost use Rattle.plain_spawns.specs.Spawns.{ActivitiesBegin};

/// A law: where the current activity is at a poll or none runs, the host begins an activity of a method whose activations have contexts: machine
/// and host then stand for the state that the source enters, at the poll of the method's first node.
pub fn activities_begin_with_contexts()
    ensures { ActivitiesBegin }
{}
