ghost use Rattle.std.specs.Prelude.{◌≡◌, IfOk, IfErr};
ghost use Rattle.std.specs.Result.{IsErrAnd};
ghost use Rattle.hys_number.specs.Ops.{◌<ₙ◌, whole};
ghost use Rattle.hys_compile.specs.Faults.{no_memory};
ghost use Rattle.hys_compile.specs.Text.{IsCompiled, IsCause, IsRefusal, IsCompilable, AnswersCause};
ghost use Rattle.hys_compile.specs.declared.fault.SourceFault.{SourceFault as Fault};

use crate::building::build;
use crate::defining::{define, find_intervals};
use crate::fault::SourceFault;
use crate::front::{count, lex, measure, parse, size};
use crate::laws;
use crate::typing::translate;
use hys_frac::Frac;
use hys_prog::{Order, Program};
use hys_sys::System;
use std::alloc::Global;

/// What a source is compiled to: its program, the order in which the program's auxiliaries are
/// defined, and its system.
#[derive(Debug, Drop)]
pub struct Compiled {
    pub program: Program,
    pub order: Order,
    pub system: System,
}

// The stages in their order, each with its own faults.
fn run_stages(alloc: Global, text: &[u8], eps: Frac) -> Result<Compiled, SourceFault>
    requires eps { whole 0 <ₙ eps }
    ensures done { IfOk result (IsCompiled eps text.now) }
    ensures refused { IfErr result (IsRefusal eps text.now) }
{
    size(text)?;
    let cut = lex(alloc, text)?;
    let tokens = cut.as_slice();
    count(text, tokens)?;
    let source = parse(alloc, text, tokens)?;
    measure(text, tokens, &source)?;
    let program = translate(alloc, text, tokens, &source, eps)?;
    let order = define(alloc, text, tokens, &source, &program)?;
    let boxes = find_intervals(alloc, text, tokens, &source, &program, &order)?;
    let system = build(alloc, text, tokens, &source, eps, &program, &order, &boxes)?;
    Ok(Compiled {
        program,
        order,
        system,
    })
}

/// The program of a source and its system, from its text. The tolerance is that of each guard
/// without one of its own.
///
/// The system is exact for the source: from every state and input in their boxes its rows have a
/// solution exactly where the automaton has a legal step, each is then the only one, and they agree.
///
/// # Errors
///
/// The first fault of the source, in this order: a text over the limit on bytes; a byte, a comment
/// or a word that can't be cut into tokens; too many tokens; a token too deep in parentheses and
/// signs; a token with which no source goes on; too many expression nodes, in all or in one
/// expression; the first rule of typing that is broken: of names, of the values of parameters, of
/// bounds, of items, each in the order of the text, and then of names that no item defines; names
/// that are defined by one another in a circle, from the one that is declared first on; the first
/// number of the intervals of the auxiliaries, along their order, that doesn't fit, and then the
/// first number of the rows, along the items, each with the place of its item.
pub fn compile(alloc: Global, text: &[u8], eps: Frac) -> Result<Compiled, SourceFault>
    requires eps { whole 0 <ₙ eps }
    ensures done { IfOk result (IsCompiled eps text.now) }
    ensures refused { IfErr result (IsRefusal eps text.now) }
    ensures exact { (fault : Fault) → IsCause eps text.now fault → IsErrAnd result (AnswersCause text.now fault) }
    ensures accepts { IsCompilable eps text.now → IfErr result (λ f. f ≡ no_memory) }
    ensures compilable { IfOk result (λ _. IsCompilable eps text.now) }
{
    laws::one_cause();
    run_stages(alloc, text, eps)
}
