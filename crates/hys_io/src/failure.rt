ghost use Rattle.std.specs.Prelude.{◌≡◌};
ghost use Rattle.hys_io.specs.declared.failure.Failure.TheVariants.{Memory};

use std::alloc::{AllocError, AllocFailed};

/// Why a call on the outside was refused.
#[derive(Clone, Copy, Debug, PartialEq, Eq)]
pub enum Failure {
    /// The outside refused. The object's count of such faults has risen, or stands at its end.
    Fault,
    /// There was no memory for the call.
    Memory,
}

impl From<AllocError> for Failure {
    ghost from_gives = { λ _ e. e ≡ Memory };

    fn from(_: AllocError) -> Failure {
        Failure::Memory
    }
}

impl<T: Drop> From<AllocFailed<T>> for Failure {
    ghost from_gives = { λ _ e. e ≡ Memory };

    fn from(_: AllocFailed<T>) -> Failure {
        Failure::Memory
    }
}
