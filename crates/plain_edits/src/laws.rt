// Laws of edits while a session rests.
ghost use Rattle.plain_edits.specs.Beginning.{SessionsKnowBlocks};
ghost use Rattle.plain_edits.specs.Heaps.{EditsAreWritten, HeapsFollowEdits};
ghost use Rattle.plain_edits.specs.Order.{ObjectsInOrder};
ghost use Rattle.plain_edits.specs.Resting.{EditsCome, EditsForm, EditsPay, EditsPayAnew, EditsRest, EditsStand};

/// A law: the heap with a new map of an object, and with the words of new strings, stands for the objects that an edit leaves.
pub fn heaps_follow_edits()
    ensures { HeapsFollowEdits }
{}

/// A law: strings that are written one after the other at the heap's top, and then the stored number of the object's new map, leave memory so.
pub fn edits_are_written()
    ensures { EditsAreWritten }
{}

/// A law: where the source accepts an edit, its command comes to the state that the edit leaves, which is well formed.
pub fn edits_come()
    ensures come { EditsCome }
    ensures form { EditsForm }
{}

/// A law: machine and host with the edit stand for that state, and the heap's room is paid for behind the strings,
/// from the place that moves with them and from one that the heap's top tells.
pub fn edits_stand()
    ensures stand { EditsStand }
    ensures pay { EditsPay }
    ensures anew { EditsPayAnew }
{}

/// A law: the session rests again, for that state, where there is room.
pub fn edits_rest()
    ensures { EditsRest }
{}

/// A law: a session over a world knows the maps of blocks where it begins.
pub fn sessions_know_blocks()
    ensures { SessionsKnowBlocks }
{}

/// A law: where the cells of a heap have the numbers of the objects in order, the references to these cells are those to the objects.
pub fn objects_in_order()
    ensures { ObjectsInOrder }
{}
