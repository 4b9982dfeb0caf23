// Laws of the names and maps of a session, and of its beginning.
ghost use Rattle.world_blocks.specs.Knowing.{BlocksHaveMaps, HeapsKnowBlocks, SessionsBegin, SessionsHaveNames};

/// A law: the names of a world keep their numbers in a session, and its own texts have names.
pub fn sessions_have_names()
    ensures { SessionsHaveNames }
{}

/// A law: the map of contexts is there, and that of each body's blocks, which tells them.
pub fn blocks_have_maps()
    ensures { BlocksHaveMaps }
{}

/// A law: the heap of a world stands behind the maps of a session.
pub fn heaps_know_blocks()
    ensures { HeapsKnowBlocks }
{}

/// A law: where a session over a world begins, with the maps of blocks.
pub fn sessions_begin()
    ensures { SessionsBegin }
{}
