// Laws of what service 1 does.
ghost use Rattle.plain_answers.specs.Assigning.{AssignmentsAnswer, GoalsAreLeft};
ghost use Rattle.plain_answers.specs.Failing.{ActivitiesEnd, ErrorsFail, MissingFails, OverflowFails, PlacesAgree};
ghost use Rattle.plain_answers.specs.Fitting.{AssignmentsFit, MethodsFit};
ghost use Rattle.plain_answers.specs.Found.{Assigns, AssignmentsHaveWords, Finds, Misses, OfHolders, OfParents, OfValues, Reads, ValuesFind};
ghost use Rattle.plain_answers.specs.Whole.{WholeAssigns, WholeStands};

/// A law: where an assignment slot answers a message, the words behind the service do the source's step; the service stored no other word, so
/// that the goal is what it left.
pub fn assignments_answer_sends()
    ensures answer { AssignmentsAnswer }
    ensures goal { GoalsAreLeft }
{}

/// A law: the current activity may end by any error, at any place: machine and host then stand for the state in which it has. Where a step is an
/// error, the activity ends with it, at the place of its node: machine and host then stand for the state after
/// the step. So it is of a message that meets no slot or more than one, and of one that meets a method where 4096 activations are there. The place
/// is that of the node at which the machine is.
pub fn errors_end_activities()
    ensures any { ActivitiesEnd }
    ensures node { ErrorsFail }
    ensures missing { MissingFails }
    ensures overflow { OverflowFails }
    ensures place { PlacesAgree }
{}

/// A law: in a well-formed state the method of an object that a message meets takes as many arguments as it has, and an assignment slot one.
pub fn messages_fit()
    ensures method { MethodsFit }
    ensures assignment { AssignmentsFit }
{}

/// A law: where a lookup over words finds no slot, or more than one, the message meets none, by the error of that name.
pub fn missing_found()
    ensures receiver { OfValues (λ v w. Misses) }
    ensures above { OfHolders Misses }
    ensures through { OfParents Misses }
{}

/// A law: where it finds an assignment slot, the message meets that, and the data that it sets stands in front of it, in a word of the object.
pub fn assignments_found()
    ensures receiver { OfValues (λ v w. Assigns) }
    ensures above { OfHolders Assigns }
    ensures through { OfParents Assigns }
    ensures word { AssignmentsHaveWords }
{}

/// A law: where it finds an assignable slot, its data stands in a word of memory.
pub fn fields_found()
    ensures receiver { OfValues (λ v w. Reads) }
    ensures above { OfHolders Reads }
    ensures through { OfParents Reads }
{}

/// A law: where it finds a method, the message meets it, in an object whose word was found; or in the block that the receiver is.
pub fn methods_found()
    ensures receiver { OfValues ValuesFind }
    ensures above { OfHolders Finds }
    ensures through { OfParents Finds }
{}

/// A law: what lookups tell holds where they read the machine's memory, though machine and host show the words of the heap alone.
pub fn lookups_read_memory()
    ensures stands { WholeStands }
    ensures assignments { WholeAssigns }
{}
