ghost use Rattle.std.specs.Prelude.{◌≡◌, IfOk};
ghost use Rattle.hys_number.specs.Ops.{whole};
ghost use Rattle.hys_relax.specs.LinearProgram.{row_at};
ghost use Rattle.hys_relax.specs.Worked.{term, worked};

use crate::{Cell, Tableau, start};
use hys_frac::{Frac, List};
use hys_lin::{Affine, Interval, Problem, Row, Term};
use hys_relax::{Multipliers, Var};
use std::alloc::{AllocError, Global};
use std::test::Fail;

fn interval(low: u32, high: u32) -> Interval
    ensures { result ≡ record { low = whole low; high = whole high } }
{
    Interval {
        low: Frac::whole(low),
        high: Frac::whole(high),
    }
}

fn boxes(alloc: Global) -> Result<List<Interval>, AllocError>
    ensures { IfOk result (λ r. r ≡ worked.boxes) }
{
    let mut boxes = Vec::new(alloc);
    boxes.push(interval(0, 0))?;
    boxes.push(interval(0, 1))?;
    boxes.push(interval(0, 1))?;
    boxes.push(interval(0, 10))?;
    Ok(List::of(boxes))
}

fn item(column: u32, factor: Frac) -> Term
    ensures { result ≡ term column factor }
{
    Term { column, factor }
}

// The sum of three and two times the inputs.
fn demand(alloc: Global) -> Result<List<Term>, AllocError>
    ensures { IfOk result (λ r. r ≡ (row_at worked 0).terms) }
{
    let mut terms = Vec::new(alloc);
    terms.push(item(1, Frac::whole(3)))?;
    terms.push(item(2, Frac::whole(2)))?;
    Ok(List::of(terms))
}

// The end without the start and that sum.
fn change(alloc: Global) -> Result<List<Term>, AllocError>
    ensures { IfOk result (λ r. r ≡ (row_at worked 1).terms) }
{
    let mut terms = Vec::new(alloc);
    terms.push(item(0, Frac::whole(1).neg()))?;
    terms.push(item(1, Frac::whole(3).neg()))?;
    terms.push(item(2, Frac::whole(2).neg()))?;
    terms.push(item(3, Frac::whole(1)))?;
    Ok(List::of(terms))
}

fn rows(alloc: Global) -> Result<List<Row>, AllocError>
    ensures { IfOk result (λ r. r ≡ worked.rows) }
{
    let mut rows = Vec::new(alloc);
    rows.push(Row {
        terms: demand(alloc)?,
        bound: Frac::whole(4),
        eq: false,
    })?;
    rows.push(Row {
        terms: change(alloc)?,
        bound: Frac::whole(0),
        eq: true,
    })?;
    Ok(List::of(rows))
}

fn cost(alloc: Global) -> Result<Affine, AllocError>
    ensures { IfOk result (λ r. r ≡ worked.cost) }
{
    let mut terms = Vec::new(alloc);
    terms.push(item(3, Frac::whole(1).neg()))?;
    Ok(Affine {
        terms: List::of(terms),
        constant: Frac::whole(0),
    })
}

fn worked_problem(alloc: Global) -> Result<Problem, AllocError>
    ensures { IfOk result (λ p. p ≡ worked) }
{
    let mut branch = Vec::new(alloc);
    branch.push(1)?;
    branch.push(2)?;
    Ok(Problem {
        boxes: boxes(alloc)?,
        rows: rows(alloc)?,
        cost: cost(alloc)?,
        branch: List::of(branch),
    })
}

fn started(alloc: Global) -> Result<Tableau, AllocError> {
    let problem = worked_problem(alloc)?;
    start(alloc, &problem)
}

// The cell; none where there is none.
fn cell(tableau: &Tableau, row: u32, col: u32) -> Option<Frac> {
    if row as usize > tableau.rows() || col as usize > tableau.columns() {
        return None;
    }
    Some(tableau.cell(row, col))
}

// What a pivot answers; none where there is no cell or it is 0.
fn pivot(tableau: &mut Tableau, row: u32, col: u32) -> Option<Result<(), Cell>> {
    if row as usize >= tableau.rows() || col as usize >= tableau.columns() {
        return None;
    }
    if tableau.cell(row, col).is_zero() {
        return None;
    }
    Some(tableau.pivot(row, col))
}

// The variables of a row and a column.
fn variables(tableau: &Tableau, row: u32, col: u32) -> Option<(Var, Var)> {
    if row as usize >= tableau.rows() || col as usize >= tableau.columns() {
        return None;
    }
    Some((tableau.basic(row), tableau.outside(col)))
}

fn ones(alloc: Global) -> Result<Multipliers, AllocError> {
    let mut pairs = Vec::new(alloc);
    pairs.push((0, Frac::whole(1)))?;
    pairs.push((1, Frac::whole(1)))?;
    Ok(Multipliers {
        pairs: List::of(pairs),
    })
}

fn part(num: i64, den: i64) -> Result<Frac, Fail> {
    Ok(Frac::new(num, den).ok_or("a number of a row doesn't fit")?)
}

#[test]
fn pivots_of_a_plan(rt: HostRuntime) -> Result<(), Fail> {
    let alloc = rt.alloc();
    let mut tableau = started(alloc)?;
    assert_eq!(rt; cell(&tableau, 0, 4), Some(part(4, 1)?));
    assert_eq!(rt; cell(&tableau, 1, 2), Some(part(-2, 1)?));
    assert_eq!(rt; cell(&tableau, 2, 3), Some(part(1, 1)?));
    assert_eq!(rt;
        variables(&tableau, 1, 2),
        Some((Var::Slack(1), Var::Column(2)))
    );
    assert_eq!(rt; pivot(&mut tableau, 1, 2), Some(Ok(())));
    assert_eq!(rt; cell(&tableau, 1, 1), Some(part(3, 2)?));
    assert_eq!(rt; cell(&tableau, 0, 0), Some(part(-1, 1)?));
    assert_eq!(rt; cell(&tableau, 0, 2), Some(part(1, 1)?));
    assert_eq!(rt;
        variables(&tableau, 1, 2),
        Some((Var::Column(2), Var::Slack(1)))
    );
    assert_eq!(rt; pivot(&mut tableau, 0, 3), Some(Ok(())));
    assert_eq!(rt; cell(&tableau, 1, 4), Some(part(2, 1)?));
    assert_eq!(rt; cell(&tableau, 2, 4), Some(part(-4, 1)?));
    assert_eq!(rt; tableau.multipliers(alloc), Ok(ones(alloc)?));
    let kept = tableau.copy(alloc)?;
    assert_eq!(rt; pivot(&mut tableau, 1, 1), Some(Ok(())));
    assert_eq!(rt; cell(&kept, 1, 4), Some(part(2, 1)?));
    assert_eq!(rt; cell(&tableau, 1, 3), Some(part(1, 3)?));
    assert_eq!(rt; cell(&tableau, 1, 4), Some(part(4, 3)?));
    Ok(())
}
