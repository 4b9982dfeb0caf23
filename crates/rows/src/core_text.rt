// The core text: the objects that every world needs, before the lines of its own.

/// The core text, nine lines: the lobby, `nil`, `true`, `false`, and the traits of integers, strings, vectors and
/// blocks.
pub const CORE_TEXT: &[u8] = b"lobby = lobby. nil = ().\n\
true = ( | parent* = lobby. ifTrue: a False: b = ( a value ) | ).\n\
false = ( | parent* = lobby. ifTrue: a False: b = ( b value ) | ).\n\
integerTraits = ( | parent* = lobby. + n = ( _IntAdd: n ). - n = ( _IntSub: n ).\n\
< n = ( _IntLT: n ). = n = ( _IntEQ: n ) | ).\n\
stringTraits = ( | parent* = lobby. print = ( _StringPrint ) | ).\n\
vectorTraits = ( | parent* = lobby | ).\n\
blockTraits = ( | parent* = lobby.\n\
whileTrue: b = ( value ifTrue: [ b value ] False: [ ^ nil ]. _Restart ) | ).\n";
