ghost use Rattle.std.specs.Prelude.{◌≡◌, ◌≤◌, length, IfOk};
ghost use Rattle.hys_prog.specs.Programs.{IsProgram};
ghost use Rattle.hys_prog.specs.Orders.{IsOrder};
ghost use Rattle.hys_bound.specs.Ranges.{intervals};
ghost use Rattle.hys_sys.specs.Exact.{Exact};
ghost use Rattle.hys_sys.specs.System.{IsSystem};
ghost use Rattle.hys_exact.specs.Automata.{LegalSteps, automaton_of};
ghost use Rattle.hys_exact.specs.Built.{IsBuilt};
ghost use Rattle.hys_exact.specs.Columns.{front};
ghost use Rattle.hys_mld.specs.Answers.{Judged};
ghost use Rattle.hys_mld.specs.Assembled.{IsAssembledFrom};
ghost use Rattle.hys_mld.specs.Fresh.{fresh_of, name_columns};
ghost use Rattle.hys_mld.specs.Lines.{AreLines};
ghost use Rattle.hys_mld.specs.Numbers.{row_numbers};
ghost use Rattle.hys_mld.specs.Stated.{AreStated};
ghost use Rattle.hys_mld.specs.Written.{IsWritten};

use crate::columns::columns;
use crate::fault::BuildFault;
use crate::forms::{next_forms, output_forms};
use crate::fresh::count_fresh;
use crate::items::{Lines, write_lines};
use crate::placing::{count, place};
use hys_base::List;
use hys_lin::Interval;
use hys_prog::{Order, Program, definitions};
use hys_sys::System;
use std::alloc::{AllocError, Global};

/// The columns of a program's names, the number of fresh columns, and the first of these.
#[derive(Drop)]
struct Layout {
    columns: Vec<u32>,
    fresh: u32,
    first: u32,
}

/// The mixed logical dynamical system of the program, whose names have these intervals along the
/// order. From each state with each input in their boxes its rows have a solution exactly where the
/// program has a legal step; there is one, and the auxiliaries, the next state and the outputs are
/// those of the step. Rows follow the items in source order, and each has the name that its item
/// defines as its label, or the place of a demand.
///
/// # Errors
/// `Range` exactly where a number of the rows doesn't fit, with the first and the place of its
/// item. `Memory` where memory is wanting, as it is for more items than a `u32` can number.
pub fn build(
    alloc: Global,
    program: &Program,
    order: &Order,
    ranges: &[Interval],
) -> Result<System, BuildFault>
    requires program { IsProgram program.now }
    requires order { IsOrder program.now order.now }
    requires ranges { ranges.now ≡ intervals program.now order.now }
    ensures exact { IfOk result (λ s. Exact (automaton_of program.now) (LegalSteps program.now) s) }
    ensures lawful { IfOk result IsSystem }
    ensures weight { IfOk result (λ s. s.weight ≡ program.now.weight) }
    ensures built { IfOk result (λ s. IsBuilt program.now ranges.now s) }
    ensures stated { IfOk result (λ s. AreStated program.now ranges.now s.rows) }
    ensures written { IfOk result (λ s. IsWritten program.now ranges.now s) }
    ensures judged { Judged (row_numbers program.now ranges.now) result }
{
    let _weight = program.weight;
    let layout = lay_out(alloc, program)?;
    let lines = match write_lines(
        alloc,
        program.names.items(),
        program.items.items(),
        &layout.columns,
        ranges,
        layout.first,
    ) {
        Ok(lines) => lines,
        Err(fault) => return Err(fault),
    };
    Ok(assemble(alloc, program, ranges, layout.fresh, lines)?)
}

// The columns of the program's names. Fresh columns are counted before real auxiliaries have their
// columns, behind them.
fn lay_out(alloc: Global, program: &Program) -> Result<Layout, AllocError>
    requires { IsProgram program.now }
    ensures columns { IfOk result (λ l. l.columns.items ≡ name_columns program.now) }
    ensures fresh { IfOk result (λ l. l.fresh ≡ fresh_of program.now) }
    ensures first { IfOk result (λ l. l.first ≡ length (front program.now)) }
{
    let _weight = program.weight;
    let names = program.names.items();
    let counts = count(names);
    let before = place(alloc, names, counts.start(0))?;
    let fresh = count_fresh(alloc, program.items.items(), &before)?;
    Ok(Layout {
        columns: place(alloc, names, counts.start(fresh))?,
        fresh,
        first: counts.state + counts.input + counts.boolean,
    })
}

// The system with these lines.
fn assemble(
    alloc: Global,
    program: &Program,
    boxes: &[Interval],
    fresh: u32,
    lines: Lines,
) -> Result<System, AllocError>
    requires program { IsProgram program.now }
    requires boxes { length boxes.now ≡ length program.now.names }
    requires forms { length lines.forms.items ≡ length program.now.items }
    ensures { IfOk result (λ s. IsAssembledFrom program.now boxes.now fresh lines s) }
{
    let Lines {
        rows,
        labels,
        forms,
    } = lines;
    let names = program.names.items();
    let places = definitions(alloc, program)?;
    Ok(System {
        name: program.system.clone()?,
        columns: List::of(columns(alloc, program, boxes, fresh)?),
        next: List::of(next_forms(alloc, names, &places, &forms)?),
        outputs: List::of(output_forms(alloc, names, &places, &forms)?),
        rows: List::of(rows),
        labels: List::of(labels),
        weight: program.weight,
    })
}
