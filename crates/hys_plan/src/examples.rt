//! Worked problems in memory.

ghost use Rattle.std.specs.Prelude.{◌≡◌, [], ◌∷◌, IfOk};
ghost use Rattle.hys_number.specs.Ops.{neg, whole};
ghost use Rattle.hys_lin.specs.Problem.{IsProblem};
ghost use Rattle.hys_relax.specs.Bound.{weights};
ghost use Rattle.hys_relax.specs.Node.{unit_box};
ghost use Rattle.hys_relax.specs.Worked.{worked};
ghost use Rattle.hys_relax.specs.BoundSum.{BoundFits};
ghost use Rattle.hys_dual.specs.Cases.{barred};

use hys_frac::{Frac, List};
use hys_lin::{Affine, Interval, Problem, Row, Term};
use std::alloc::{AllocError, Global};

fn interval(low: Frac, high: Frac) -> Interval
    ensures { result ≡ record { low = low; high = high } }
{
    Interval { low, high }
}

fn unit() -> Interval
    ensures { result ≡ unit_box }
{
    interval(Frac::whole(0), Frac::whole(1))
}

fn minus(number: u32) -> Frac
    ensures { result ≡ neg (whole number) }
{
    Frac::whole(number).neg()
}

// Columns with their factors as terms.
fn terms(alloc: Global, pairs: &[(u32, Frac)]) -> Result<List<Term>, AllocError>
    ensures { IfOk result (λ r. r ≡ weights pairs.now) }
{
    let mut list = Vec::new(alloc);
    for k in 0..pairs.len() {
        let (column, factor) = pairs[k];
        list.push(Term { column, factor })?;
    }
    Ok(List::of(list))
}

fn row(alloc: Global, pairs: &[(u32, Frac)], bound: Frac, eq: bool) -> Result<Row, AllocError>
    ensures { IfOk result (λ r. r ≡ record { terms = weights pairs.now; bound = bound; eq = eq }) }
{
    Ok(Row {
        terms: terms(alloc, pairs)?,
        bound,
        eq,
    })
}

fn cost(alloc: Global, pairs: &[(u32, Frac)]) -> Result<Affine, AllocError>
    ensures { IfOk result (λ f. f ≡ record { terms = weights pairs.now; constant = whole 0 }) }
{
    Ok(Affine {
        terms: terms(alloc, pairs)?,
        constant: Frac::whole(0),
    })
}

// ---- a plan of one step with two switches
fn worked_boxes(alloc: Global) -> Result<List<Interval>, AllocError>
    ensures { IfOk result (λ r. r ≡ worked.boxes) }
{
    let mut boxes = Vec::new(alloc);
    boxes.push(interval(Frac::whole(0), Frac::whole(0)))?;
    boxes.push(unit())?;
    boxes.push(unit())?;
    boxes.push(interval(Frac::whole(0), Frac::whole(10)))?;
    Ok(List::of(boxes))
}

fn worked_rows(alloc: Global) -> Result<List<Row>, AllocError>
    ensures { IfOk result (λ r. r ≡ worked.rows) }
{
    let demand = [(1, Frac::whole(3)), (2, Frac::whole(2))];
    let change = [
        (0, minus(1)),
        (1, minus(3)),
        (2, minus(2)),
        (3, Frac::whole(1)),
    ];
    let mut rows = Vec::new(alloc);
    rows.push(row(alloc, &demand, Frac::whole(4), false)?)?;
    rows.push(row(alloc, &change, Frac::whole(0), true)?)?;
    Ok(List::of(rows))
}

/// A plan of one step with two switches.
pub fn switches(alloc: Global) -> Result<Problem, AllocError>
    ensures sound { IfOk result (λ p. IsProblem p) }
    ensures plain { IfOk result (λ p. BoundFits p [] []) }
{
    let problem = worked_problem(alloc)?;
    Ok(problem)
}

fn worked_problem(alloc: Global) -> Result<Problem, AllocError>
    ensures { IfOk result (λ p. p ≡ worked) }
{
    let mut branch = Vec::new(alloc);
    branch.push(1)?;
    branch.push(2)?;
    Ok(Problem {
        boxes: worked_boxes(alloc)?,
        rows: worked_rows(alloc)?,
        cost: cost(alloc, &[(3, minus(1))])?,
        branch: List::of(branch),
    })
}

/// A column that never meets its row.
pub fn never(alloc: Global) -> Result<Problem, AllocError>
    ensures sound { IfOk result (λ p. IsProblem p) }
    ensures plain { IfOk result (λ p. BoundFits p [] []) }
{
    let problem = barred_problem(alloc)?;
    Ok(problem)
}

fn barred_problem(alloc: Global) -> Result<Problem, AllocError>
    ensures { IfOk result (λ p. p ≡ barred) }
{
    let mut boxes = Vec::new(alloc);
    boxes.push(unit())?;
    let mut rows = Vec::new(alloc);
    rows.push(row(alloc, &[(0, Frac::whole(1))], minus(1), false)?)?;
    Ok(Problem {
        boxes: List::of(boxes),
        rows: List::of(rows),
        cost: cost(alloc, &[(0, Frac::whole(1))])?,
        branch: List::of(Vec::new(alloc)),
    })
}
