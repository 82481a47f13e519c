ghost use Rattle.std.specs.Prelude.{◌≡◌, ◌+◌, length, IfOk};
ghost use Rattle.hys_lin.specs.Problem.{IsProblem};
ghost use Rattle.hys_lin.specs.Ranges.{box_at};
ghost use Rattle.hys_relax.specs.LinearProgram.{linear_program};
ghost use Rattle.hys_relax.specs.Bound.{AreLawful};
ghost use Rattle.hys_simplex.specs.Laws.{AreOrdered, IsReached};
ghost use Rattle.hys_simplex.specs.Status.{AllInside};
ghost use Rattle.hys_tab.specs.Table.{tableau_of};
ghost use Rattle.hys_dual.specs.Choosing.{AreFitting, IsFinish, IsChoice};
ghost use Rattle.hys_dual.specs.Costs.{with_cost};
ghost use Rattle.hys_dual.specs.Standing.{AllStand};
ghost use Rattle.hys_dual.specs.Summing.{sum_operations};
ghost use Rattle.hys_dual.specs.Tables.{ends_in, IsLeavingIn, IsBlockedIn};

use crate::bound::bound_sum;
use crate::end::End;
use crate::entering::entering;
use crate::finish::{Choice, Finish, Pointed};
use crate::multipliers::row_multipliers;
use crate::off_range::{Leaving, OffRange, first_off};
use crate::point::{lost_row, point};
use crate::raised::ends;
use crate::stand::{Stand, stands};
use hys_frac::Frac;
use hys_lin::{Interval, LinFault, Problem, Term};
use hys_relax::TablePlace;
use hys_tab::Tableau;
use std::alloc::{AllocError, Global};

/// The pivot of the rule, or the end: every basic value is inside, or no column may enter, or a
/// number doesn't fit.
pub fn choose(
    alloc: Global,
    problem: &Problem,
    boxes: &[Interval],
    tableau: &Tableau,
) -> Result<Choice, AllocError>
    requires problem { IsProblem problem.now }
    requires boxes { length boxes.now ≡ length problem.now.boxes }
    requires ordered { AreOrdered (length problem.now.boxes) (box_at boxes.now) }
    requires reached { IsReached (linear_program problem.now) (tableau_of tableau.now) }
    ensures { IfOk result (λ q. IsChoice problem.now (box_at boxes.now) (tableau_of tableau.now) q) }
{
    let stands = stands(alloc, tableau)?;
    let ends = ends(alloc, problem, boxes, tableau, stands.as_slice())?;
    match first_off(problem, boxes, tableau, ends.as_slice()) {
        Leaving::Inside => {
            let finish = least(
                alloc,
                problem,
                boxes,
                tableau,
                stands.as_slice(),
                ends.as_slice(),
            )?;
            Ok(Choice::Done(finish))
        }
        Leaving::Off(off) => left(
            alloc,
            problem,
            boxes,
            tableau,
            stands.as_slice(),
            ends.as_slice(),
            off,
        ),
        Leaving::Unfit(row) => Ok(Choice::Done(Finish::Stuck(TablePlace::Value { row }))),
    }
}

// The pivot in the row that leaves, or the end where no column may enter.
fn left(
    alloc: Global,
    problem: &Problem,
    boxes: &[Interval],
    tableau: &Tableau,
    stands: &[Stand],
    ends: &[End],
    off: OffRange,
) -> Result<Choice, AllocError>
    requires problem { IsProblem problem.now }
    requires boxes { length boxes.now ≡ length problem.now.boxes }
    requires ordered { AreOrdered (length problem.now.boxes) (box_at boxes.now) }
    requires reached { IsReached (linear_program problem.now) (tableau_of tableau.now) }
    requires stands { AllStand (tableau_of tableau.now) stands.now }
    requires long { length stands.now ≡ length tableau.now.outsides + length tableau.now.basics }
    requires ends { ends.now ≡ ends_in problem.now boxes.now tableau.now }
    requires leaving { IsLeavingIn problem.now boxes.now tableau.now off }
    ensures { IfOk result (λ q. IsChoice problem.now (box_at boxes.now) (tableau_of tableau.now) q) }
{
    match entering(problem, boxes, tableau, stands, ends, off.row, off.under) {
        Some(column) => Ok(Choice::Pivot(off.row, column)),
        None => {
            let finish = never(alloc, problem, boxes, tableau, stands, off)?;
            Ok(Choice::Done(finish))
        }
    }
}

// The end where every basic value is inside its range.
fn least(
    alloc: Global,
    problem: &Problem,
    boxes: &[Interval],
    tableau: &Tableau,
    stands: &[Stand],
    ends: &[End],
) -> Result<Finish, AllocError>
    requires problem { IsProblem problem.now }
    requires boxes { length boxes.now ≡ length problem.now.boxes }
    requires reached { IsReached (linear_program problem.now) (tableau_of tableau.now) }
    requires stands { AllStand (tableau_of tableau.now) stands.now }
    requires long { length stands.now ≡ length tableau.now.outsides + length tableau.now.basics }
    requires ends { ends.now ≡ ends_in problem.now boxes.now tableau.now }
    requires inside { AllInside (linear_program problem.now) (box_at boxes.now) (tableau_of tableau.now) }
    ensures { IfOk result (λ f. IsFinish problem.now (box_at boxes.now) (tableau_of tableau.now) f) }
{
    let multipliers = tableau.multipliers(alloc)?;
    let cost = &problem.cost;
    if !sum_fits(
        alloc,
        problem,
        cost.terms.items(),
        cost.constant,
        boxes,
        multipliers.pairs.items(),
    )? {
        return Ok(Finish::Stuck(TablePlace::Sum));
    }
    match point(alloc, problem, boxes, tableau, stands, ends)? {
        Pointed::Unfit(row) => Ok(Finish::Stuck(TablePlace::Value { row })),
        Pointed::At(point) => match lost_row(problem, tableau.rows() as u32, &point) {
            Some(row) => Ok(Finish::Stuck(TablePlace::Value { row })),
            None => Ok(Finish::Least { point, multipliers }),
        },
    }
}

// The end where no column may enter for the row that leaves.
fn never(
    alloc: Global,
    problem: &Problem,
    boxes: &[Interval],
    tableau: &Tableau,
    stands: &[Stand],
    off: OffRange,
) -> Result<Finish, AllocError>
    requires problem { IsProblem problem.now }
    requires boxes { length boxes.now ≡ length problem.now.boxes }
    requires ordered { AreOrdered (length problem.now.boxes) (box_at boxes.now) }
    requires reached { IsReached (linear_program problem.now) (tableau_of tableau.now) }
    requires stands { AllStand (tableau_of tableau.now) stands.now }
    requires long { length stands.now ≡ length tableau.now.outsides + length tableau.now.basics }
    requires blocked { IsBlockedIn problem.now boxes.now tableau.now off }
    ensures { IfOk result (λ f. IsFinish problem.now (box_at boxes.now) (tableau_of tableau.now) f) }
{
    let multipliers = row_multipliers(alloc, problem, tableau, stands, off.row, off.under)?;
    if !sum_fits(
        alloc,
        problem,
        &[],
        Frac::whole(0),
        boxes,
        multipliers.pairs.items(),
    )? {
        return Ok(Finish::Stuck(TablePlace::Sum));
    }
    Ok(Finish::Never { multipliers })
}

// Whether every number of the bound's sum fits, with the given cost in place of the problem's.
fn sum_fits(
    alloc: Global,
    problem: &Problem,
    cost: &[Term],
    constant: Frac,
    boxes: &[Interval],
    pairs: &[(u32, Frac)],
) -> Result<bool, AllocError>
    requires boxes { length boxes.now ≡ length problem.now.boxes }
    requires lawful { AreLawful problem.now pairs.now }
    ensures { IfOk result (AreFitting (sum_operations (with_cost problem.now cost.now constant) boxes.now pairs.now)) }
{
    match bound_sum(alloc, problem, cost, constant, boxes, pairs) {
        Ok(_) => Ok(true),
        Err(LinFault::Lost(_)) => Ok(false),
        Err(LinFault::Memory) => Err(AllocError),
    }
}
