ghost use Rattle.std.specs.Prelude.{◌≡◌};
ghost use Rattle.hys_guard.specs.declared.fault.GuardFault.TheVariants.{Memory};
ghost use Rattle.hys_guard.specs.declared.fault.GuardFault.TheVariants.{Lost as Shown};

use hys_lin::Lost;
use std::alloc::{AllocError, AllocFailed};

/// Why rows weren't made: a number of them doesn't fit, or memory was wanting.
#[derive(Clone, Copy, Debug, PartialEq, Eq)]
pub enum GuardFault {
    Lost(Lost),
    Memory,
}

impl From<Lost> for GuardFault {
    ghost from_gives = { λ l e. e ≡ Shown l };

    fn from(lost: Lost) -> GuardFault {
        GuardFault::Lost(lost)
    }
}

impl From<AllocError> for GuardFault {
    ghost from_gives = { λ _ e. e ≡ Memory };

    fn from(_: AllocError) -> GuardFault {
        GuardFault::Memory
    }
}

impl<T: Drop> From<AllocFailed<T>> for GuardFault {
    ghost from_gives = { λ _ e. e ≡ Memory };

    fn from(_: AllocFailed<T>) -> GuardFault {
        GuardFault::Memory
    }
}
