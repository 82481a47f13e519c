//! The stage from the intervals of a program to its system.

ghost use Rattle.std.specs.Prelude.{◌≡◌, IfOk, IfErr};
ghost use Rattle.hys_ast.specs.Seen.{source_of};
ghost use Rattle.hys_prog.specs.Programs.{IsProgram};
ghost use Rattle.hys_prog.specs.Orders.{IsOrder};
ghost use Rattle.hys_bound.specs.Ranges.{intervals};
ghost use Rattle.hys_type.specs.Translation.{IsTranslation};
ghost use Rattle.hys_exact.specs.Automata.{LegalSteps, automaton_of};
ghost use Rattle.hys_exact.specs.Built.{IsBuilt};
ghost use Rattle.hys_mld.specs.Stated.{AreStated};
ghost use Rattle.hys_mld.specs.Written.{IsWritten};
ghost use Rattle.hys_sys.specs.Exact.{Exact};
ghost use Rattle.hys_sys.specs.System.{IsSystem};
ghost use Rattle.hys_compile.specs.Text.{IsRanged, IsRowed, IsRefusal};

use crate::defining::{place_of, show_range};
use crate::fault::SourceFault;
use hys_ast::Source;
use hys_frac::Frac;
use hys_lex::Token;
use hys_lin::Interval;
use hys_mld::BuildFault;
use hys_prog::{Order, Program};
use hys_sys::System;
use std::alloc::Global;

// Builds the system of the program, whose guards have this tolerance where they have none of their own.
#[tactic(auto, using(crate::proofs::Causes::by_memory))]
pub fn build(
    alloc: Global,
    text: &[u8],
    tokens: &[Token],
    source: &Source,
    tolerance: Frac,
    program: &Program,
    order: &Order,
    boxes: &[Interval],
) -> Result<System, SourceFault>
    requires ranged { IsRanged text.now tokens.now (source_of source.now) }
    requires translation { IsTranslation tolerance (source_of source.now) program.now }
    requires program { IsProgram program.now }
    requires order { IsOrder program.now order.now }
    requires boxes { boxes.now ≡ intervals program.now order.now }
    ensures exact { IfOk result (λ s. Exact (automaton_of program.now) (LegalSteps program.now) s) }
    ensures lawful { IfOk result IsSystem }
    ensures weight { IfOk result (λ s. s.weight ≡ program.now.weight) }
    ensures built { IfOk result (λ s. IsBuilt program.now (intervals program.now order.now) s) }
    ensures stated { IfOk result (λ s. AreStated program.now (intervals program.now order.now) s.rows) }
    ensures written { IfOk result (λ s. IsWritten program.now (intervals program.now order.now) s) }
    ensures rowed { IfOk result (λ _. IsRowed tolerance text.now tokens.now (source_of source.now)) }
    ensures err { IfErr result (IsRefusal tolerance text.now) }
{
    match hys_mld::build(alloc, program, order, boxes) {
        Ok(system) => Ok(system),
        Err(BuildFault::Range(item, lost)) => Err(show_range(
            place_of(program.items.items(), item),
            lost,
        )),
        Err(BuildFault::Memory) => Err(SourceFault::memory()),
    }
}
