ghost use Rattle.std.specs.Prelude.{◌≡◌};
ghost use Rattle.hys_lin.specs.declared.lost.LinFault.TheVariants.{Memory};
ghost use Rattle.hys_lin.specs.declared.lost.LinFault.TheVariants.{Lost as Shown};

use hys_frac::Frac;
use std::alloc::{AllocError, AllocFailed};

/// An operation on two numbers.
#[derive(Clone, Copy, Debug, PartialEq, Eq)]
pub enum Op {
    Add,
    Sub,
    Mul,
    Div,
}

/// Two operands whose result doesn't fit.
#[derive(Clone, Copy, Debug, PartialEq, Eq)]
pub struct Lost {
    pub op: Op,
    pub left: Frac,
    pub right: Frac,
}

/// Why a form wasn't made: a number of it doesn't fit, or memory was wanting.
#[derive(Clone, Copy, Debug, PartialEq, Eq)]
pub enum LinFault {
    Lost(Lost),
    Memory,
}

impl From<Lost> for LinFault {
    ghost from_gives = { λ l e. e ≡ Shown l };

    fn from(lost: Lost) -> LinFault {
        LinFault::Lost(lost)
    }
}

impl From<AllocError> for LinFault {
    ghost from_gives = { λ _ e. e ≡ Memory };

    fn from(_: AllocError) -> LinFault {
        LinFault::Memory
    }
}

impl<T: Drop> From<AllocFailed<T>> for LinFault {
    ghost from_gives = { λ _ e. e ≡ Memory };

    fn from(_: AllocFailed<T>) -> LinFault {
        LinFault::Memory
    }
}
