// Laws of activities that are switched while a session rests.
ghost use Rattle.plain_switches.specs.Resting.{FramesMayComeUp, SwitchesCome, SwitchesCount, SwitchesRest, SwitchesShow, SwitchesStand};

/// A law: while a session rests, the youngest frame of an activity that waits may be taken up.
pub fn activities_come_up()
    ensures { FramesMayComeUp }
{}

/// A law: with another current activity machine and host count and show what they did, and stand for the state that the source's command comes to.
pub fn switches_stand()
    ensures counts { SwitchesCount }
    ensures shows { SwitchesShow }
    ensures stands { SwitchesStand }
    ensures comes { SwitchesCome }
{}

/// A law: the session rests again, for that state.
pub fn switches_rest()
    ensures { SwitchesRest }
{}
