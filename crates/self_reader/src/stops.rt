// Why there is nothing to answer.
ghost use Rattle.std.specs.Prelude.{◌≡◌};
ghost use Rattle.self_reader.specs.declared.stops.ReadStop.TheVariants.{OutOfMemory};

use self_grammar::ReadRefusal;
use std::alloc::AllocError;
use thiserror::Error;

/// Why a text isn't read.
#[derive(Clone, Copy, Debug, PartialEq, Eq, Error)]
pub enum ReadStop {
    /// Something is wrong with it: what is wrong first, at the first sign at which something is.
    #[error("the text is refused")]
    Refused(ReadRefusal),
    #[error("out of memory")]
    OutOfMemory,
}

impl From<AllocError> for ReadStop {
    ghost from_gives = { λ _ e. e ≡ OutOfMemory };

    fn from(_: AllocError) -> Self {
        ReadStop::OutOfMemory
    }
}

impl From<self_tokens::OutOfMemory> for ReadStop {
    ghost from_gives = { λ _ e. e ≡ OutOfMemory };

    fn from(_: self_tokens::OutOfMemory) -> Self {
        ReadStop::OutOfMemory
    }
}
