// Laws of the names of a session over an accepted world.
ghost use Rattle.further_names.specs.Accepted.{AcceptedSlotsGoOn};

use world_formed::accepted_things_fit;
use world_ready::names_go_on;

/// A law: the slots of the world of a text within the limits fit with the names of a session and any behind
/// them.
pub fn accepted_slots_go_on()
    ensures { AcceptedSlotsGoOn }
{
    accepted_things_fit();
    names_go_on();
}
