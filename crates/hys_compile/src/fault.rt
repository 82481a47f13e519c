ghost use Rattle.std.specs.Prelude.{◌≡◌};
ghost use Rattle.hys_compile.specs.Faults.{fault_at, over_limit, no_memory};

use crate::number;
use hys_ast::Place;
use hys_base::{List, Text};
use hys_frac::Frac;
use hys_lin::Lost;
use std::alloc::{AllocError, AllocFailed};

/// What is counted of a source and passes its limit.
#[derive(Clone, Copy, Debug, PartialEq, Eq)]
pub enum LimitKind {
    /// Bytes of the text, at most 1,048,576.
    Bytes,
    /// Tokens, at most 16,384.
    Tokens,
    /// How deep a token stands in parentheses and signs, at most 64.
    Nesting,
    /// Nodes of all expressions, at most 4,000.
    Nodes,
    /// Nodes of one expression, at most 1,000.
    Expression,
    /// Declared names, at most 200.
    Names,
}

/// What a fault shows.
#[derive(Debug, PartialEq, Eq, Drop)]
pub enum Detail {
    /// The place of the fault.
    At(Place),
    /// The name that is missing.
    Named(Text),
    /// The names of a circle.
    Names(List<Text>),
    /// A name's place, and the low and the high end of its bounds.
    Ends(Place, Frac, Frac),
    /// The place of a literal that doesn't fit.
    Literal(Place),
    /// A place, and two operands whose result doesn't fit.
    Range(Place, Lost),
    /// A name's place, and a tolerance that isn't above 0.
    Tolerance(Place, Frac),
    /// The limit that is passed.
    Limit(LimitKind),
    /// Nothing: memory was wanting.
    Memory,
}

/// Why a source is refused. The number is that of the fault in the list of the module [`number`],
/// and 0 at want of memory alone.
#[derive(Debug, PartialEq, Eq, Drop)]
pub struct SourceFault {
    pub number: u8,
    pub detail: Detail,
}

impl SourceFault {
    // A fault of this number at a place.
    pub(crate) fn placed(number: u8, place: Place) -> SourceFault
        ensures { result ≡ fault_at number place }
    {
        SourceFault {
            number,
            detail: Detail::At(place),
        }
    }

    /// The fault of a limit that is passed.
    pub fn over(kind: LimitKind) -> SourceFault
        ensures { result ≡ over_limit kind }
    {
        SourceFault {
            number: number::LIMIT,
            detail: Detail::Limit(kind),
        }
    }

    pub(crate) fn memory() -> SourceFault
        ensures { result ≡ no_memory }
    {
        SourceFault {
            number: 0,
            detail: Detail::Memory,
        }
    }
}

impl From<AllocError> for SourceFault {
    ghost from_gives = { λ _ e. e ≡ no_memory };

    fn from(_: AllocError) -> SourceFault {
        SourceFault::memory()
    }
}

impl<T: Drop> From<AllocFailed<T>> for SourceFault {
    ghost from_gives = { λ _ e. e ≡ no_memory };

    fn from(_: AllocFailed<T>) -> SourceFault {
        SourceFault::memory()
    }
}
