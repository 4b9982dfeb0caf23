// Laws of units in memory.
ghost use Rattle.plain_units.specs.Putting.{UnitsArePut, UnitsArePutIdle};

/// A law: a unit that is put behind the others changes nothing that machine and host show.
pub fn units_are_put()
    ensures running { UnitsArePut }
    ensures idle { UnitsArePutIdle }
{}
