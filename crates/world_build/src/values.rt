// What is open and what is held while a text is read.

use self_terms::Datum;

/// What is open: an object or a body whose text isn't at its end, by its number.
#[derive(Clone, Copy, Debug, PartialEq, Eq)]
pub(crate) enum Open {
    InObject(u32),
    InBody(u32),
}

/// What the slot that ends next holds.
#[derive(Clone, Copy, Debug, PartialEq, Eq)]
pub(crate) enum Held {
    Nothing,
    Data(Datum),
    Code(u32),
}
