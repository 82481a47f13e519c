ghost use Rattle.std.specs.Prelude.{◌≡◌, ◌+◌, ◌*◌, ◌^◌, ◌<◌, ◌++◌, length, IfOk};
ghost use Rattle.hys_number.specs.Ops.{neg};
ghost use Rattle.hys_simplex.specs.Unfit.{pairs_to};
ghost use Rattle.hys_tab.specs.Cells.{some_pair, number_at, DifferentBelow};
ghost use Rattle.hys_tab.specs.Cells.{AreNegatedCosts, HasForSlack, OtherSlacksStay};

use hys_frac::Frac;
use std::alloc::{AllocError, AllocFailed, Global};

/// For each of so many rows the negated cost cell of its slack, and 0 where the slack is basic.
pub fn negated_costs(
    alloc: Global,
    cells: &[Frac],
    outside: &[usize],
    rows: usize,
) -> Result<Vec<Frac>, AllocError>
    requires shape { length cells.now ≡ (rows + 1) * (length outside.now + 1) }
    requires places { DifferentBelow (length outside.now + rows) outside.now }
    ensures long { IfOk result (λ v. length v.items ≡ rows) }
    ensures each { IfOk result (λ v. AreNegatedCosts cells.now outside.now rows v.items) }
{
    let columns = outside.len();
    let mut list = vec![in alloc; Frac::whole(0); rows]?;
    for j in 0..columns {
        let cost = cells[rows * (columns + 1) + j];
        put_negated(&mut list, columns, outside[j], cost);
    }
    Ok(list)
}

// The negated cost, put at the row of the variable where that is a slack.
fn put_negated(list: &mut Vec<Frac>, columns: usize, variable: usize, cost: Frac)
    requires { variable < columns + length list.old.items }
    ensures long { length list.new.items ≡ length list.old.items }
    ensures there { HasForSlack columns variable (neg cost) list.new.items }
    ensures others { OtherSlacksStay columns variable list.old.items list.new.items }
{
    if variable >= columns {
        list[variable - columns] = cost.neg();
    }
}

/// The numbers that aren't 0, each with its place.
pub fn without_zeros(alloc: Global, numbers: &[Frac]) -> Result<Vec<(u32, Frac)>, AllocError>
    requires { length numbers.now < 2 ^ 32 }
    ensures { IfOk result (λ v. v.items ≡ pairs_to (length numbers.now) (number_at numbers.now)) }
{
    let mut pairs = Vec::new(alloc);
    for k in 0..numbers.len() {
        push_some(&mut pairs, k as u32, numbers[k])?;
    }
    Ok(pairs)
}

// Appends the place and the number, unless that is 0.
fn push_some(
    pairs: &mut Vec<(u32, Frac)>,
    place: u32,
    number: Frac,
) -> Result<(), AllocFailed<(u32, Frac)>>
    ensures { IfOk result (λ _. pairs.new.items ≡ pairs.old.items ++ some_pair place number) }
{
    if number.is_zero() {
        return Ok(());
    }
    pairs.push((place, number))
}
