ghost use Rattle.std.specs.Prelude.{◌≡◌, ◌++◌, [], map, replicate, OnOk, IfOk};
ghost use Rattle.std.specs.Fmt.{decimal};
ghost use Rattle.hys_prog.specs.Programs.{text_of};
ghost use Rattle.hys_sim.specs.Written.{after_commas, header_text, last_text, numbers_text, step_text};
ghost use Rattle.hys_sim.specs.Views.{lent};

use crate::names::names_of;
use hys_frac::Frac;
use hys_prog::{Name, Program, Role, Stepped};
use std::alloc::{AllocError, Global};

/// The record of the names.
pub fn header(alloc: Global, program: &Program) -> Result<Vec<u8>, AllocError>
    ensures { IfOk result (λ out. out.items ≡ header_text program.now) }
{
    let mut out = Vec::new(alloc);
    out.extend_from_slice(b"step")?;
    write_names(&mut out, &names_of(alloc, program, Role::State)?)?;
    write_names(&mut out, &names_of(alloc, program, Role::Input)?)?;
    write_names(&mut out, &names_of(alloc, program, Role::Aux)?)?;
    write_names(&mut out, &names_of(alloc, program, Role::Output)?)?;
    out.push(b'\n')?;
    Ok(out)
}

/// Writes the record of a step.
pub fn write_transition(
    alloc: Global,
    out: &mut Vec<u8>,
    number: u32,
    state: &[Frac],
    input: &[Frac],
    stepped: &Stepped,
) -> Result<(), AllocError>
    ensures { OnOk result (out.new.items ≡ out.old.items ++ step_text number state.now input.now stepped.now) }
{
    write_number(alloc, out, number)?;
    write_values(alloc, out, state)?;
    write_values(alloc, out, input)?;
    write_values(alloc, out, stepped.aux.items())?;
    write_values(alloc, out, stepped.outputs.items())?;
    out.push(b'\n')?;
    Ok(())
}

/// Writes the last record: the number of steps, the state that is reached, and empty fields.
pub fn write_last(
    alloc: Global,
    out: &mut Vec<u8>,
    program: &Program,
    number: u32,
    state: &[Frac],
) -> Result<(), AllocError>
    ensures { OnOk result (out.new.items ≡ out.old.items ++ last_text program.now number state.now) }
{
    write_number(alloc, out, number)?;
    write_values(alloc, out, state)?;
    write_empty(out, names_of(alloc, program, Role::Input)?.len())?;
    write_empty(out, names_of(alloc, program, Role::Aux)?.len())?;
    write_empty(out, names_of(alloc, program, Role::Output)?.len())?;
    out.push(b'\n')?;
    Ok(())
}

// Writes the number of a step.
fn write_number(alloc: Global, out: &mut Vec<u8>, number: u32) -> Result<(), AllocError>
    ensures { OnOk result (out.new.items ≡ out.old.items ++ decimal number) }
{
    let text = format!(in alloc; "{number}")?;
    out.extend_from_slice(text.as_bytes())
}

// Writes the numbers, each after a comma.
fn write_values(alloc: Global, out: &mut Vec<u8>, values: &[Frac]) -> Result<(), AllocError>
    ensures { OnOk result (out.new.items ≡ out.old.items ++ after_commas (numbers_text values.now)) }
{
    for value in values {
        out.push(b',')?;
        value.write(alloc, out)?;
    }
    Ok(())
}

// Writes the texts of the names, each after a comma.
fn write_names(out: &mut Vec<u8>, names: &[&Name]) -> Result<(), AllocError>
    ensures { OnOk result (out.new.items ≡ out.old.items ++ after_commas (map text_of (lent names.now))) }
{
    for name in names {
        out.push(b',')?;
        out.extend_from_slice(name.text.text().as_bytes())?;
    }
    Ok(())
}

// Writes as many empty fields.
fn write_empty(out: &mut Vec<u8>, count: usize) -> Result<(), AllocError>
    ensures { OnOk result (out.new.items ≡ out.old.items ++ after_commas (replicate count [])) }
{
    let mut left = count;
    while left > 0 {
        out.push(b',')?;
        left -= 1;
    }
    Ok(())
}
