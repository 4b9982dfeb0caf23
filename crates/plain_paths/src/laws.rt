// Laws: what is read off the words is what the source says of the things that they stand for.
ghost use Rattle.plain_paths.specs.Laws.{DataStand, InitialsStand, NumbersStand, PathsLead, SlotsHold};

use self_terms::words_are_integers;

/// A law: at a path stands a word where a value stands there in the source, and the word stands for
/// the value.
pub fn paths_lead()
    ensures { PathsLead }
{}

/// A law: an own slot over words is missing, a method, an assignment slot or data exactly as in the
/// source; and what has one is an object, with the number that its word tells.
pub fn slots_hold()
    ensures slots { SlotsHold }
    ensures numbers { NumbersStand }
{}

/// A law: words are the data that the values are; and so is what a path leads to, as the initial
/// content of a local.
pub fn data_stand()
    ensures data { DataStand }
    ensures initials { InitialsStand }
{
    words_are_integers();
}
