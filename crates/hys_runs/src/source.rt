//! From a text to its program, and what is shown of names and numbers.

ghost use Rattle.std.specs.Prelude.{◌<◌, ◌^◌, length, IfOk};
ghost use Rattle.hys_number.specs.Ops.{◌<ₙ◌, whole};
ghost use Rattle.std.specs.List.{AllByRecursion};
ghost use Rattle.hys_ast.specs.Seen.{source_of};
ghost use Rattle.hys_type.specs.Checks.{HasSourceLiterals};
ghost use Rattle.hys_type.specs.Declaring.{IsDeclaration};
ghost use Rattle.hys_type.specs.DeclarationKeeping.{IsReadSource};
ghost use Rattle.hys_prog.specs.Programs.{IsProgram};

use hys_ast::Source;
use hys_compile::laws;
use hys_frac::Frac;
use hys_lex::tokens;
use hys_lin::{Lost, Op};
use hys_parse::parse;
use hys_prog::{NameId, Program};
use hys_type::program;
use std::alloc::{AllocError, Global};
use std::test::Fail;

// The tree of a text.
fn read(alloc: Global, text: &[u8]) -> Result<Source, Fail>
    requires { length text.now < 2 ^ 20 }
    ensures literals { IfOk result (λ s. HasSourceLiterals (source_of s)) }
    ensures declarations { IfOk result (λ s. AllByRecursion IsDeclaration (source_of s).decls) }
    ensures written { IfOk result (λ s. IsReadSource (source_of s)) }
{
    laws::read_sources();
    let cut = match tokens(alloc, text) {
        Ok(cut) => cut,
        Err(_) => return Err(Fail::from("the text has no tokens")),
    };
    match parse(alloc, cut.as_slice(), text) {
        Ok(source) => Ok(source),
        Err(_) => Err(Fail::from("the tokens have no tree")),
    }
}

// The program of a text.
fn translate(alloc: Global, text: &[u8], tolerance: Frac) -> Result<Program, Fail>
    requires small { length text.now < 2 ^ 20 }
    requires tolerance { whole 0 <ₙ tolerance }
    ensures { IfOk result (λ p. IsProgram p) }
{
    let source = match read(alloc, text) {
        Ok(source) => source,
        Err(fail) => return Err(fail),
    };
    match program(alloc, &source, tolerance) {
        Ok(program) => Ok(program),
        Err(_) => Err(Fail::from("the source has no program")),
    }
}

/// The program of a text, at a tolerance of 1/1000.
pub fn program_of(alloc: Global, text: &str) -> Result<Program, Fail>
    ensures { IfOk result (λ p. IsProgram p) }
{
    let tolerance = Frac::new(1, 1000).ok_or("a number of a row doesn't fit")?;
    if text.len() >= 1 << 20 || !tolerance.is_positive() {
        return Err(Fail::from("a row is out of bounds"));
    }
    translate(alloc, text.as_bytes(), tolerance)
}

/// The text of the name at the place.
pub fn name_at(program: &Program, name: NameId) -> &str {
    match program.names.items().get(name as usize) {
        Some(name) => name.text.text(),
        None => "",
    }
}

/// An operation whose result doesn't fit.
pub fn lost_text(alloc: Global, lost: Lost) -> Result<String, AllocError> {
    let left = lost.left.text(alloc)?;
    let right = lost.right.text(alloc)?;
    let sign = match lost.op {
        Op::Add => "+",
        Op::Sub => "-",
        Op::Mul => "*",
        Op::Div => "/",
    };
    format!(in alloc; "{left} {sign} {right}")
}
