// Laws of an opened world.
ghost use Rattle.plain_opens.specs.Opens.{FixedNamesSum, WorldsOpen};

/// A law: the host over the image of a world whose bodies plain code runs, and where there is room for all their units, rests for the state with which
/// a session over that world begins.
pub fn worlds_open()
    ensures { WorldsOpen }
{}

/// A law: names that start with the two fixed ones have those of sums and differences.
pub fn fixed_names_sum()
    ensures { FixedNamesSum }
{}
