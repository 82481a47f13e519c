ghost use Rattle.std.specs.Prelude.{◌≡◌};
ghost use Rattle.hys_rows.specs.declared.fault.RowFault.TheVariants.{Memory};
ghost use Rattle.hys_rows.specs.declared.fault.RowFault.TheVariants.{Lost as Shown};

use hys_lin::Lost;
use std::alloc::{AllocError, AllocFailed};

/// Why rows weren't made: a number of them doesn't fit, or memory was wanting.
#[derive(Clone, Copy, Debug, PartialEq, Eq)]
pub enum RowFault {
    Lost(Lost),
    Memory,
}

impl From<Lost> for RowFault {
    ghost from_gives = { λ l e. e ≡ Shown l };

    fn from(lost: Lost) -> RowFault {
        RowFault::Lost(lost)
    }
}

impl From<AllocError> for RowFault {
    ghost from_gives = { λ _ e. e ≡ Memory };

    fn from(_: AllocError) -> RowFault {
        RowFault::Memory
    }
}

impl<T: Drop> From<AllocFailed<T>> for RowFault {
    ghost from_gives = { λ _ e. e ≡ Memory };

    fn from(_: AllocFailed<T>) -> RowFault {
        RowFault::Memory
    }
}
