ghost use Rattle.std.specs.Prelude.{◌≡◌};
ghost use Rattle.hys_sim.specs.declared.fault.SimFault.TheVariants.{Memory};

use hys_base::{List, Text};
use hys_prog::Stop;
use std::alloc::{AllocError, AllocFailed};

/// Which table.
#[derive(Clone, Copy, Debug, PartialEq, Eq)]
pub enum Which {
    Start,
    Inputs,
}

/// Why tables aren't simulated. Records are counted from 1, the header being 0, and fields from 1.
#[derive(Debug, PartialEq, Eq, Drop)]
pub enum SimFault {
    /// The table has no header in UTF-8 (0), or the record isn't as long as the header.
    Csv(Which, u32),
    /// The table of the start has no record (1), or more than one (2).
    Rows(Which, u32),
    /// The field of the header that is wrong, or the name that it doesn't have.
    Column(Which, Text),
    /// The field of the record is no number that fits, isn't 0 or 1 where it has to be, or isn't the
    /// number of its step.
    Value(Which, u32, u32),
    /// There are too many records of inputs.
    Limit,
    /// Memory was wanting.
    Memory,
}

/// A run over tables: its table, the number of its legal steps, and what stopped the step after
/// them, if something did.
#[derive(Debug, PartialEq, Eq, Drop)]
pub struct Simulated {
    pub table: List<u8>,
    pub steps: u32,
    pub stop: Option<Stop>,
}

impl From<AllocError> for SimFault {
    ghost from_gives = { λ _ e. e ≡ Memory };

    fn from(_: AllocError) -> SimFault {
        SimFault::Memory
    }
}

impl<T: Drop> From<AllocFailed<T>> for SimFault {
    ghost from_gives = { λ _ e. e ≡ Memory };

    fn from(_: AllocFailed<T>) -> SimFault {
        SimFault::Memory
    }
}
