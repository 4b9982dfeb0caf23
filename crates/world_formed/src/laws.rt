// What holds of the state with which a session over the world of an accepted text begins.
ghost use Rattle.world_formed.specs.Begins.{BodiesFit, BodiesSay, ThingsFit, ValuesStand, WorldsBeginFormed, WorldsCanBegin};

/// A law: each body of the world of a text within the limits finds the values that its nodes take, and the locals and blocks that they name.
pub fn accepted_bodies_fit()
    ensures { BodiesFit }
{}

/// A law: the strings and names that its bodies say are there, and each message has as many arguments as its name says.
pub fn accepted_bodies_say()
    ensures { BodiesSay }
{}

/// A law: its methods take as many arguments as the names of their slots say, each assignment slot stands behind the slot that it assigns, and no
/// two slots of an object have one name.
pub fn accepted_things_fit()
    ensures { ThingsFit }
{}

/// A law: the values in its slots are there, and none is a block.
pub fn accepted_values_stand()
    ensures { ValuesStand }
{}

/// A law: a session can begin over it, where `value:With:` has a number, and begins with a well-formed state.
pub fn accepted_worlds_begin_formed()
    ensures begin { WorldsCanBegin }
    ensures formed { WorldsBeginFormed }
{}
