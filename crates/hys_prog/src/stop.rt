ghost use Rattle.std.specs.Prelude.{◌≡◌};
ghost use Rattle.hys_prog.specs.declared.stop.StepFault.TheVariants.{Memory};
ghost use Rattle.hys_prog.specs.declared.stop.StepFault.TheVariants.{Stop as Stopped};

use hys_formula::NameId;
use hys_frac::{Frac, List};
use hys_lin::Lost;
use std::alloc::{AllocError, AllocFailed};

/// What a step gives: the values of the auxiliaries, those of the outputs, and the next values of
/// the states, each in declaration order, a Bool as 0 or 1.
#[derive(Debug, PartialEq, Eq, Drop)]
pub struct Stepped {
    pub aux: List<Frac>,
    pub outputs: List<Frac>,
    pub next: List<Frac>,
}

/// What stops a step. Items are given by their place in `items`.
#[derive(Clone, Copy, Debug, PartialEq, Eq)]
pub enum Stop {
    /// A state or an input is outside its bounds, or a Bool isn't 0 or 1.
    Bounds(NameId),
    /// A guard number is above 0 and below its tolerance.
    Gap(u32),
    /// A demand doesn't hold.
    Must(u32),
    /// The operands of an operation of the item whose result doesn't fit.
    Range(u32, Lost),
}

/// Why a program makes no step: it stops, or memory was wanting.
#[derive(Clone, Copy, Debug, PartialEq, Eq)]
pub enum StepFault {
    Stop(Stop),
    Memory,
}

impl From<Stop> for StepFault {
    ghost from_gives = { λ s e. e ≡ Stopped s };

    fn from(stop: Stop) -> StepFault {
        StepFault::Stop(stop)
    }
}

impl From<AllocError> for StepFault {
    ghost from_gives = { λ _ e. e ≡ Memory };

    fn from(_: AllocError) -> StepFault {
        StepFault::Memory
    }
}

impl<T: Drop> From<AllocFailed<T>> for StepFault {
    ghost from_gives = { λ _ e. e ≡ Memory };

    fn from(_: AllocFailed<T>) -> StepFault {
        StepFault::Memory
    }
}
