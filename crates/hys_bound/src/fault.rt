ghost use Rattle.std.specs.Prelude.{◌≡◌};
ghost use Rattle.hys_bound.specs.declared.fault.BoundFault.TheVariants.{Memory};

use hys_lin::Lost;
use std::alloc::{AllocError, AllocFailed};

/// Why the names have no intervals: a number of an item's, which stands at this place in `items`,
/// doesn't fit, or memory was wanting.
#[derive(Clone, Copy, Debug, PartialEq, Eq)]
pub enum BoundFault {
    Range(u32, Lost),
    Memory,
}

impl From<AllocError> for BoundFault {
    ghost from_gives = { λ _ e. e ≡ Memory };

    fn from(_: AllocError) -> BoundFault {
        BoundFault::Memory
    }
}

impl<T: Drop> From<AllocFailed<T>> for BoundFault {
    ghost from_gives = { λ _ e. e ≡ Memory };

    fn from(_: AllocFailed<T>) -> BoundFault {
        BoundFault::Memory
    }
}
