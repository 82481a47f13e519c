//! The boxes of a stacked problem.

ghost use Rattle.std.specs.Prelude.{◌≡◌, ◌≤◌, ◌++◌, length, map, IfOk};
ghost use Rattle.hys_stack.specs.Requests.{state_columns, is_state};
ghost use Rattle.hys_stack.specs.Stacking.{only, bounds_of, step_boxes, stacked_boxes};

use crate::request::Request;
use hys_frac::Frac;
use hys_lin::Interval;
use hys_sys::{Column, ColumnRole, System};
use std::alloc::{AllocError, Global};

// Appends for each number the box of this number alone.
fn push_only(out: &mut Vec<Interval>, numbers: &[Frac]) -> Result<(), AllocError>
    ensures { IfOk result (λ _. out.new.items ≡ out.old.items ++ map only numbers.now) }
{
    for number in numbers {
        out.push(Interval {
            low: *number,
            high: *number,
        })?;
    }
    Ok(())
}

// Appends the boxes of the columns.
fn push_bounds(out: &mut Vec<Interval>, columns: &[Column]) -> Result<(), AllocError>
    ensures { IfOk result (λ _. out.new.items ≡ out.old.items ++ bounds_of columns.now) }
{
    for column in columns {
        out.push(column.bounds)?;
    }
    Ok(())
}

/// Whether the column is a state.
pub fn is_state(column: &Column) -> bool
    ensures { result ≡ is_state column.now.role }
{
    matches!(column.role, ColumnRole::State)
}

// Appends the boxes of the states.
fn push_state_bounds(out: &mut Vec<Interval>, columns: &[Column]) -> Result<(), AllocError>
    ensures { IfOk result (λ _. out.new.items ≡ out.old.items ++ bounds_of (state_columns columns.now)) }
{
    for column in columns {
        if is_state(column) {
            out.push(column.bounds)?;
        }
    }
    Ok(())
}

// Appends the boxes of a step. At the first one each state has its start alone.
fn push_step(
    out: &mut Vec<Interval>,
    system: &System,
    request: &Request,
    step: u32,
) -> Result<(), AllocError>
    requires { length request.now.start ≤ length system.now.columns }
    ensures { IfOk result (λ _. out.new.items ≡ out.old.items ++ step_boxes system.now request.now step) }
{
    let columns = system.columns.items();
    if step > 0 {
        return push_bounds(out, columns);
    }
    push_only(out, request.start.items())?;
    push_bounds(out, &columns[request.start.items().len()..])
}

/// The boxes of all columns: those of each step, and then those of the states after the last.
#[tactic(auto, using(crate::proofs::Steps::each_on))]
pub fn stack_boxes(
    alloc: Global,
    system: &System,
    request: &Request,
) -> Result<Vec<Interval>, AllocError>
    requires { length request.now.start ≤ length system.now.columns }
    ensures { IfOk result (λ boxes. boxes.items ≡ stacked_boxes system.now request.now) }
{
    let mut boxes = Vec::new(alloc);
    for step in 0..request.horizon {
        push_step(&mut boxes, system, request, step)?;
    }
    push_state_bounds(&mut boxes, system.columns.items())?;
    Ok(boxes)
}
