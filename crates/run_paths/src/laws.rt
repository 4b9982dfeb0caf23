// Laws of paths over a running program.
ghost use Rattle.run_paths.specs.Standing.{HostsLead, HostsHold, HostsNumber, HostsData, HostsInitials, HostsRead};

use plain_paths::{data_stand, paths_lead, slots_hold};
use world_begins::heaps_stand_alone;

/// A law: where machine and host stand for a state, a path leads over the words where it leads in the
/// source, own slots hold what they hold there, and words are the data that their values are; and each
/// word that stands for a value may be read.
pub fn paths_stand()
    ensures lead { HostsLead }
    ensures hold { HostsHold }
    ensures number { HostsNumber }
    ensures data { HostsData }
    ensures initials { HostsInitials }
    ensures read { HostsRead }
{
    paths_lead();
    slots_hold();
    data_stand();
    heaps_stand_alone();
}
