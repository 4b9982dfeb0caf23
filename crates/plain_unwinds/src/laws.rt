// Laws of services that end activations.
ghost use Rattle.plain_unwinds.specs.Failing.{ActivitiesEnd, ErrorsFail, MissingFails, OverflowFails};
ghost use Rattle.plain_unwinds.specs.Returning.{HomeReturns, HomeReturnsAsk, HomesLeave};
ghost use Rattle.plain_unwinds.specs.Walking.{ActivitiesMayEnd};

/// A law: where the step of a node is an error, machine and host stand for the state after it once service 8 has ended the current activity,
/// whose activations may have contexts; so where its message meets no slot or two, and where too many activations would be there;
/// and it has ended by any error that the service names, at any place.
pub fn errors_end_activities()
    ensures node { ErrorsFail }
    ensures missing { MissingFails }
    ensures overflow { OverflowFails }
    ensures end { ActivitiesEnd }
{}

/// A law: the words of a return from a home method lead to service 4; after it the words behind the home's caller's call do the source's step,
/// or, where the home was the oldest activation, machine and host stand for the state with the activity's answer.
pub fn home_returns_unwind()
    ensures asks { HomeReturnsAsk }
    ensures step { HomeReturns }
    ensures leaves { HomesLeave }
{}

/// A law: wherever a node has asked for a service, these services may be done.
pub fn activities_may_end()
    ensures { ActivitiesMayEnd }
{}
