//! The stages from a measured tree to a program.

ghost use Rattle.std.specs.Prelude.{◌≡◌, IfOk, IfErr};
ghost use Rattle.hys_number.specs.Ops.{◌<ₙ◌, whole};
ghost use Rattle.hys_ast.specs.Seen.{source_of};
ghost use Rattle.hys_prog.specs.Programs.{IsProgram};
ghost use Rattle.hys_type.specs.Translation.{IsTranslation};
ghost use Rattle.hys_compile.specs.Faults.{shown};
ghost use Rattle.hys_compile.specs.Sources.{IsProgramOf};
ghost use Rattle.hys_compile.specs.Text.{IsMeasured, IsTyped, IsEarlyRefusal};

use crate::fault::{Detail, LimitKind, SourceFault};
use crate::number;
use hys_ast::Source;
use hys_frac::Frac;
use hys_lex::Token;
use hys_prog::Program;
use hys_type::{TypeFault, program};
use std::alloc::Global;

// A fault of typing, as it is shown.
fn show(fault: TypeFault) -> SourceFault
    ensures { result ≡ shown fault }
{
    match fault {
        TypeFault::Twice(place) => SourceFault::placed(number::TWICE, place),
        TypeFault::Limit => SourceFault::over(LimitKind::Names),
        TypeFault::NoValue(place) => SourceFault::placed(number::NO_VALUE, place),
        TypeFault::NoBounds(place) => SourceFault::placed(number::NO_BOUNDS, place),
        TypeFault::EmptyBounds(place, low, high) => SourceFault {
            number: number::EMPTY_BOUNDS,
            detail: Detail::Ends(place, low, high),
        },
        TypeFault::Unknown(place) => SourceFault::placed(number::UNKNOWN, place),
        TypeFault::WrongSection(place) => SourceFault::placed(number::WRONG_SECTION, place),
        TypeFault::DefinedTwice(place) => SourceFault::placed(number::DEFINED_TWICE, place),
        TypeFault::Kind(place) => SourceFault::placed(number::KIND, place),
        TypeFault::NotLinear(place) => SourceFault::placed(number::NOT_LINEAR, place),
        TypeFault::ZeroDivisor(place) => SourceFault::placed(number::ZERO_DIVISOR, place),
        TypeFault::Literal(place) => SourceFault {
            number: number::RANGE,
            detail: Detail::Literal(place),
        },
        TypeFault::Range(place, lost) => SourceFault {
            number: number::RANGE,
            detail: Detail::Range(place, lost),
        },
        TypeFault::Tolerance(place, value) => SourceFault {
            number: number::TOLERANCE,
            detail: Detail::Tolerance(place, value),
        },
        TypeFault::Missing(name) => SourceFault {
            number: number::MISSING,
            detail: Detail::Named(name),
        },
        TypeFault::Memory => SourceFault::memory(),
    }
}

// Translates the tree to a program.
#[tactic(auto, using(crate::proofs::Causes::by_typing, crate::proofs::Causes::passes_typing, crate::proofs::Readable::measured_literals, crate::proofs::Readable::measured_declarations, crate::proofs::Readable::measured_written, crate::proofs::Circles::program_of))]
pub fn translate(
    alloc: Global,
    text: &[u8],
    tokens: &[Token],
    source: &Source,
    tolerance: Frac,
) -> Result<Program, SourceFault>
    requires tolerance { whole 0 <ₙ tolerance }
    requires measured { IsMeasured text.now tokens.now (source_of source.now) }
    ensures ok { IfOk result (λ _. IsTyped text.now tokens.now (source_of source.now)) }
    ensures translation { IfOk result (λ p. IsTranslation tolerance (source_of source.now) p) }
    ensures translated { IfOk result (IsProgramOf (source_of source.now)) }
    ensures program { IfOk result (λ p. IsProgram p) }
    ensures err { IfErr result (IsEarlyRefusal text.now) }
{
    match program(alloc, source, tolerance) {
        Ok(program) => Ok(program),
        Err(fault) => Err(show(fault)),
    }
}
