// Laws of lookups over memory.
ghost use Rattle.plain_lookups.specs.Looking.{MemoriesAgree, ObjectsAreSound, ObjectsDecide, ValuesAreSound, WordsStandForOne};
ghost use Rattle.plain_lookups.specs.Telling.{FoundsTell, HoldersStand};

/// A law: wherever host and machine stand for a state, maps and memory may be read by lookups with room for the objects, from the word of each
/// value; so may the words of the heap. A word stands for one value alone.
pub fn lookups_may_be_made()
    ensures objects { ObjectsAreSound }
    ensures values { ValuesAreSound }
    ensures one { WordsStandForOne }
{}

/// A law: a lookup finds the same in two memories that agree on the word that it begins at and on the objects, and so it does in memory and in the
/// words of the heap.
pub fn memories_agree()
    ensures objects { ObjectsDecide }
    ensures heap { MemoriesAgree }
{}

/// A law: the word of the method holder stands in the frame in view, at the poll of a node and where its words have stored nothing since.
pub fn holders_stand()
    ensures { HoldersStand }
{}

/// A law: at the trap of a node that sends, the lookup of its message may be made over the machine's memory, and what it finds tells what the
/// message meets.
pub fn founds_tell()
    ensures { FoundsTell }
{}
