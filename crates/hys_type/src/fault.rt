ghost use Rattle.std.specs.Prelude.{◌≡◌};
ghost use Rattle.hys_type.specs.declared.fault.TypeFault.TheVariants.{Memory};

use hys_ast::Place;
use hys_base::Text;
use hys_frac::Frac;
use hys_lin::Lost;
use std::alloc::{AllocError, AllocFailed};

/// Why a source is no program: the first rule of typing that it breaks, and where.
#[derive(Clone, Debug, PartialEq, Eq, Drop)]
pub enum TypeFault {
    /// The name is declared a second time there.
    Twice(Place),
    /// More than 200 names are declared.
    Limit,
    /// The parameter has no value.
    NoValue(Place),
    /// The real state or input has no bounds.
    NoBounds(Place),
    /// The low end of the bounds is above the high end.
    EmptyBounds(Place, Frac, Frac),
    /// The name isn't declared, or not yet where a parameter's value names it.
    Unknown(Place),
    /// The left name doesn't suit the section.
    WrongSection(Place),
    /// The left name is defined a second time there.
    DefinedTwice(Place),
    /// The name may not stand there, or an operand or an expression has the wrong kind.
    Kind(Place),
    /// Both factors, or a divisor, are not constant.
    NotLinear(Place),
    /// The divisor is 0.
    ZeroDivisor(Place),
    /// The literal's value doesn't fit.
    Literal(Place),
    /// A number of a folded form doesn't fit.
    Range(Place, Lost),
    /// The tolerance in brackets isn't above 0.
    Tolerance(Place, Frac),
    /// No item defines the name.
    Missing(Text),
    /// Memory was wanting.
    Memory,
}

impl From<AllocError> for TypeFault {
    ghost from_gives = { λ _ e. e ≡ Memory };

    fn from(_: AllocError) -> TypeFault {
        TypeFault::Memory
    }
}

impl<T: Drop> From<AllocFailed<T>> for TypeFault {
    ghost from_gives = { λ _ e. e ≡ Memory };

    fn from(_: AllocFailed<T>) -> TypeFault {
        TypeFault::Memory
    }
}
