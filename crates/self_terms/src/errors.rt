// The errors that end an activity.

/// The name of an error: the six with which a primitive fails, and those of a send, of a block and of the store.
#[derive(Clone, Copy, PartialEq, Eq, Debug)]
pub enum ErrorName {
    BadType,
    Overflow,
    DivisionByZero,
    BadIndex,
    BadSize,
    PrimitiveNotDefined,
    NotUnderstood,
    Ambiguous,
    NonLifoBlock,
    StackOverflow,
    StoreFull,
}
