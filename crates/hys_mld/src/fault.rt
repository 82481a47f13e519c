ghost use Rattle.std.specs.Prelude.{◌≡◌};
ghost use Rattle.hys_mld.specs.declared.fault.BuildFault.TheVariants.{Memory};

use hys_lin::Lost;
use std::alloc::{AllocError, AllocFailed};

/// Why a program has no system: a number of the rows of an item, which stands at this place in
/// `items`, doesn't fit, or memory was wanting.
#[derive(Clone, Copy, Debug, PartialEq, Eq)]
pub enum BuildFault {
    Range(u32, Lost),
    Memory,
}

impl From<AllocError> for BuildFault {
    ghost from_gives = { λ _ e. e ≡ Memory };

    fn from(_: AllocError) -> BuildFault {
        BuildFault::Memory
    }
}

impl<T: Drop> From<AllocFailed<T>> for BuildFault {
    ghost from_gives = { λ _ e. e ≡ Memory };

    fn from(_: AllocFailed<T>) -> BuildFault {
        BuildFault::Memory
    }
}
