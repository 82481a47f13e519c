ghost use Rattle.std.specs.Prelude.{◌≡◌, ◌+◌, ◌++◌, ◌<◌, length, IfOk, if◌then◌else◌};
ghost use Rattle.hys_number.specs.Ops.{◌*ₙ◌, whole};
ghost use Rattle.hys_relax.specs.LinearProgram.{linear_program};
ghost use Rattle.hys_simplex.specs.Tableau.{IsOf};
ghost use Rattle.hys_simplex.specs.Unfit.{row_pairs};
ghost use Rattle.hys_tab.specs.Cells.{some_pair};
ghost use Rattle.hys_tab.specs.Table.{tableau_of};
ghost use Rattle.hys_dual.specs.Ranging.{side_of};
ghost use Rattle.hys_dual.specs.Standing.{AllStand};
ghost use Rattle.hys_dual.specs.Tables.{row_multiplier_in};

use crate::stand::Stand;
use hys_frac::{Frac, List};
use hys_lin::Problem;
use hys_relax::Multipliers;
use hys_tab::Tableau;
use std::alloc::{AllocError, AllocFailed, Global};

/// The multipliers that are read off a row, for the side that its basic value is off its range: the
/// cells of the slacks, and 1 for a basic slack, turned over where the value is above the range.
pub fn row_multipliers(
    alloc: Global,
    problem: &Problem,
    tableau: &Tableau,
    stands: &[Stand],
    row: u32,
    under: bool,
) -> Result<Multipliers, AllocError>
    requires of { IsOf (linear_program problem.now) (tableau_of tableau.now) }
    requires stands { AllStand (tableau_of tableau.now) stands.now }
    requires long { length stands.now ≡ length tableau.now.outsides + length tableau.now.basics }
    requires row { row < length tableau.now.basics }
    ensures { IfOk result (λ m. m.pairs ≡ row_pairs problem.now (tableau_of tableau.now) row (side_of under)) }
{
    let mut pairs = Vec::new(alloc);
    for slack in 0..tableau.rows() {
        let number = row_multiplier(problem, tableau, stands, row, under, slack as u32);
        push_some(&mut pairs, slack as u32, number)?;
    }
    Ok(Multipliers {
        pairs: List::of(pairs),
    })
}

// The multiplier of one slack.
fn row_multiplier(
    problem: &Problem,
    tableau: &Tableau,
    stands: &[Stand],
    row: u32,
    under: bool,
    slack: u32,
) -> Frac
    requires of { IsOf (linear_program problem.now) (tableau_of tableau.now) }
    requires stands { AllStand (tableau_of tableau.now) stands.now }
    requires long { length stands.now ≡ length tableau.now.outsides + length tableau.now.basics }
    requires row { row < length tableau.now.basics }
    requires slack { slack < length tableau.now.basics }
    ensures { result ≡ row_multiplier_in problem.now tableau.now row under slack }
{
    match stands[tableau.columns() + slack as usize] {
        Stand::Basic(other) => sided(under, indicator(other == row)),
        Stand::Outside(column) => sided(under, tableau.cell(row, column)),
    }
}

// 1 where the row is its own, else 0.
fn indicator(same: bool) -> Frac
    ensures { result ≡ (if same then whole 1 else whole 0) }
{
    if same { Frac::whole(1) } else { Frac::whole(0) }
}

// The number times 1, or times -1.
fn sided(under: bool, number: Frac) -> Frac
    ensures { result ≡ side_of under *ₙ number }
{
    if under { number } else { number.neg() }
}

// Appends the place and the number, unless that is 0.
fn push_some(
    pairs: &mut Vec<(u32, Frac)>,
    place: u32,
    number: Frac,
) -> Result<(), AllocFailed<(u32, Frac)>>
    ensures { IfOk result (λ _. pairs.new.items ≡ pairs.old.items ++ some_pair place number) }
{
    if number.is_zero() {
        return Ok(());
    }
    pairs.push((place, number))
}
