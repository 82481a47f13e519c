ghost use Rattle.std.specs.Prelude.{◌≡◌};
ghost use Rattle.hys_stack.specs.declared.fault.RequestFault.TheVariants as request;
ghost use Rattle.hys_stack.specs.declared.fault.StackFault.TheVariants as stacked;
ghost use Rattle.hys_lin.specs.declared.lost.LinFault.{LinFault as Source};
ghost use Rattle.hys_stack.specs.Numbers.{of_lin};

use hys_base::Text;
use hys_lin::{LinFault, Lost};
use std::alloc::{AllocError, AllocFailed};

/// Why a text isn't read as a request for a system. A path has the keys, joined by points, that lead
/// to what is wrong; that of the whole value is `root`.
#[derive(Debug, Drop)]
pub enum RequestFault {
    /// The text is no JSON value.
    Json,
    /// The kind or the fixed word is wrong, or a key of the root is missing or unknown.
    Shape(Text),
    /// The string is no number text, or its number doesn't fit.
    Number(Text),
    /// The name may not stand there, or this state has no start.
    Name(Text),
    /// The start of this state is outside its box, or isn't 0 or 1 though the state is Boolean.
    Start(Text),
    /// The text, or this number of it, is beyond its limit.
    Limit(Text),
    /// The stacked problem, or the work on it, would be too large.
    TooLarge,
    /// Memory was wanting.
    Memory,
}

impl From<AllocError> for RequestFault {
    ghost from_gives = { λ _ e. e ≡ request.Memory };

    fn from(_: AllocError) -> RequestFault {
        RequestFault::Memory
    }
}

impl<T: Drop> From<AllocFailed<T>> for RequestFault {
    ghost from_gives = { λ _ e. e ≡ request.Memory };

    fn from(_: AllocFailed<T>) -> RequestFault {
        RequestFault::Memory
    }
}

/// Why a request isn't stacked: a number of the cost or of its plain bound doesn't fit, or memory was
/// wanting.
#[derive(Clone, Copy, Debug, PartialEq, Eq)]
pub enum StackFault {
    Lost(Lost),
    Memory,
}

impl From<Lost> for StackFault {
    ghost from_gives = { λ l e. e ≡ stacked.Lost l };

    fn from(lost: Lost) -> StackFault {
        StackFault::Lost(lost)
    }
}

impl From<LinFault> for StackFault {
    ghost from_gives = { λ l e. e ≡ of_lin l };

    fn from(fault: LinFault) -> StackFault {
        match fault {
            LinFault::Lost(lost) => StackFault::Lost(lost),
            LinFault::Memory => StackFault::Memory,
        }
    }
}

impl From<AllocError> for StackFault {
    ghost from_gives = { λ _ e. e ≡ stacked.Memory };

    fn from(_: AllocError) -> StackFault {
        StackFault::Memory
    }
}

impl<T: Drop> From<AllocFailed<T>> for StackFault {
    ghost from_gives = { λ _ e. e ≡ stacked.Memory };

    fn from(_: AllocFailed<T>) -> StackFault {
        StackFault::Memory
    }
}
