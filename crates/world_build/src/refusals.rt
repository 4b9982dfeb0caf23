// Why a world isn't built.
use crate::cores::CoreName;
use self_terms::Place;
use std::alloc::AllocError;
use thiserror::Error;

/// Why a world isn't built: the first name of a path that can't be followed, the name of a parent slot that holds no object,
/// the first core name that is no constant slot of the lobby with an object of slots; or want of memory.
#[derive(Clone, Copy, Debug, PartialEq, Eq, Error)]
pub enum BuildRefusal {
    #[error("a path can't be followed")]
    NoSuchPath(Place),
    #[error("a parent is no object")]
    ParentNotObject(Place),
    #[error("a core object is missing")]
    MissingCore(CoreName),
    #[error("out of memory")]
    OutOfMemory,
}

impl From<AllocError> for BuildRefusal {
    ghost use Rattle.std.specs.Prelude.{◌≡◌};
    ghost use Rattle.world_build.specs.declared.refusals.BuildRefusal.TheVariants.{OutOfMemory};

    ghost from_gives = { λ _ e. e ≡ OutOfMemory };

    fn from(_: AllocError) -> BuildRefusal {
        BuildRefusal::OutOfMemory
    }
}
