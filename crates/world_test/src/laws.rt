// What a test that was passed tells.
ghost use Rattle.world_test.specs.Tells.{Tells};

/// Where the test is passed, the state with which a session over the world begins is well formed, with any number of advisors.
pub fn can_begin_tells()
    ensures { Tells }
{}
