// What holds of what the text of an edit tells.
ghost use Rattle.edit_formed.specs.Formed.{InitialsFit, MethodStands, NamesSaid, OnlyCode};

/// A law: a local that holds a string at first holds one of the text's strings.
pub fn initials_fit()
    ensures { InitialsFit }
{}

/// A law: the strings and names that its bodies say are there, and each message has as many arguments as its name says.
pub fn names_said()
    ensures { NamesSaid }
{}

/// A law: all that the items of an edit's text open are bodies.
pub fn only_code()
    ensures { OnlyCode }
{}

/// A law: the first body of an edit's text is there, and stands in no other one.
pub fn method_stands()
    ensures { MethodStands }
{}
