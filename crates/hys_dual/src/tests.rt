ghost use Rattle.std.specs.Prelude.{◌≡◌, IfOk};
ghost use Rattle.hys_lin.specs.Problem.{IsProblem};
ghost use Rattle.hys_relax.specs.Node.{IsNode};
ghost use Rattle.hys_relax.specs.Worked.{worked};

use crate::examples::{bare_problem, barred_problem, decaying_problem, equated_problem, plan};
use crate::{Relaxed, first, solve, solve_from};
use hys_frac::List;
use hys_lin::{Problem, value};
use hys_relax::{Fixing, RangeAt, TablePlace};
use hys_tab::{Cell, Tableau, start};
use std::alloc::{AllocError, Global};
use std::test::Fail;

// What an answer tells: the two parts of the cost of its point, or one of the others.
#[derive(Clone, Copy, Debug, PartialEq, Eq)]
enum Told {
    Cost(i64, i64),
    NoCost,
    Never,
    Stuck,
}

fn tell(problem: &Problem, answer: &Relaxed) -> Told
    requires { IsProblem problem.now }
{
    match answer {
        Relaxed::Least { point, .. } => {
            if point.values.items().len() != problem.boxes.items().len() {
                return Told::NoCost;
            }
            match value(&problem.cost, point) {
                Ok(cost) => Told::Cost(cost.num(), cost.den()),
                Err(_) => Told::NoCost,
            }
        }
        Relaxed::Never { .. } => Told::Never,
        Relaxed::Stuck { .. } => Told::Stuck,
    }
}

fn solved(alloc: Global, problem: &Problem, fixings: &[Fixing]) -> Result<Told, AllocError>
    requires problem { IsProblem problem.now }
    requires node { IsNode problem.now fixings.now }
{
    let answer = solve(alloc, problem, fixings)?;
    Ok(tell(problem, &answer))
}

// ---- the plan of one step
fn fixed(column: u32, one: bool) -> Fixing
    ensures { result ≡ record { column = column; one = one } }
{
    Fixing { column, one }
}

fn first_fixed(alloc: Global, problem: &Problem, one: bool) -> Result<Vec<Fixing>, AllocError>
    requires { problem.now ≡ worked }
    ensures { IfOk result (λ fs. IsNode problem.now fs.items) }
{
    let mut fixings = Vec::new(alloc);
    fixings.push(fixed(1, one))?;
    Ok(fixings)
}

fn both_fixed(
    alloc: Global,
    problem: &Problem,
    one: bool,
    other: bool,
) -> Result<Vec<Fixing>, AllocError>
    requires { problem.now ≡ worked }
    ensures { IfOk result (λ fs. IsNode problem.now fs.items) }
{
    let mut fixings = Vec::new(alloc);
    fixings.push(fixed(1, one))?;
    fixings.push(fixed(2, other))?;
    Ok(fixings)
}

fn at_root(alloc: Global) -> Result<Told, AllocError> {
    let problem = plan(alloc)?;
    solved(alloc, &problem, &[])
}

fn at_child(alloc: Global, one: bool) -> Result<Told, AllocError> {
    let problem = plan(alloc)?;
    let fixings = first_fixed(alloc, &problem, one)?;
    solved(alloc, &problem, fixings.as_slice())
}

fn at_leaf(alloc: Global, one: bool, other: bool) -> Result<Told, AllocError> {
    let problem = plan(alloc)?;
    let fixings = both_fixed(alloc, &problem, one, other)?;
    solved(alloc, &problem, fixings.as_slice())
}

// The paths at the root and then at a child.
#[derive(Drop)]
struct Walk {
    path: List<(u32, u32)>,
    longer: List<(u32, u32)>,
}

fn go_on(alloc: Global, one: bool) -> Result<Walk, AllocError> {
    let problem = plan(alloc)?;
    let begun = first(alloc, &problem)?;
    let (_, warm) = solve_from(alloc, &problem, &[], &begun)?;
    let fixings = first_fixed(alloc, &problem, one)?;
    let (_, last) = solve_from(alloc, &problem, fixings.as_slice(), &warm)?;
    Ok(Walk {
        path: warm.path,
        longer: last.path,
    })
}

// The path at a child from the slack basis on.
fn afresh(alloc: Global, one: bool) -> Result<List<(u32, u32)>, AllocError> {
    let problem = plan(alloc)?;
    let begun = first(alloc, &problem)?;
    let fixings = first_fixed(alloc, &problem, one)?;
    let (_, last) = solve_from(alloc, &problem, fixings.as_slice(), &begun)?;
    Ok(last.path)
}

// The two parts of a number of the root's point.
fn root_number(alloc: Global, place: usize) -> Result<Option<(i64, i64)>, AllocError> {
    let problem = plan(alloc)?;
    match solve(alloc, &problem, &[])? {
        Relaxed::Least { point, .. } => match point.values.items().get(place) {
            Some(number) => Ok(Some((number.num(), number.den()))),
            None => Ok(None),
        },
        Relaxed::Never { .. } | Relaxed::Stuck { .. } => Ok(None),
    }
}

// Whether the paths at the root and then at a child are these.
fn goes(
    alloc: Global,
    one: bool,
    path: &[(u32, u32)],
    longer: &[(u32, u32)],
) -> Result<bool, AllocError> {
    let walk = go_on(alloc, one)?;
    Ok(walk.path.items() == path && walk.longer.items() == longer)
}

// Whether the path at a child from the slack basis on is this.
fn begins(alloc: Global, one: bool, path: &[(u32, u32)]) -> Result<bool, AllocError> {
    let made = afresh(alloc, one)?;
    Ok(made.items() == path)
}

// ---- small problems
fn equated_tells(alloc: Global) -> Result<Told, AllocError> {
    let problem = equated_problem(alloc)?;
    solved(alloc, &problem, &[])
}

fn bare_tells(alloc: Global) -> Result<Told, AllocError> {
    let problem = bare_problem(alloc)?;
    solved(alloc, &problem, &[])
}

fn barred_tells(alloc: Global) -> Result<Told, AllocError> {
    let problem = barred_problem(alloc)?;
    solved(alloc, &problem, &[])
}

// ---- a number that doesn't fit
fn stuck_at(alloc: Global) -> Result<Option<RangeAt>, AllocError> {
    let problem = decaying_problem(alloc)?;
    match solve(alloc, &problem, &[])? {
        Relaxed::Stuck { at, .. } => Ok(Some(at)),
        Relaxed::Least { .. } | Relaxed::Never { .. } => Ok(None),
    }
}

// The tableau of the decaying state after a path, if its pivots are exact.
fn replayed(alloc: Global, path: &[(u32, u32)]) -> Result<Option<Tableau>, AllocError> {
    let problem = decaying_problem(alloc)?;
    let mut tableau = start(alloc, &problem)?;
    for k in 0..path.len() {
        let (row, column) = path[k];
        match pivoted(&mut tableau, row, column) {
            Some(Ok(())) => {}
            Some(Err(_)) | None => return Ok(None),
        }
    }
    Ok(Some(tableau))
}

// What a pivot answers; none where there is no cell or it is 0.
fn pivoted(tableau: &mut Tableau, row: u32, column: u32) -> Option<Result<(), Cell>> {
    if row as usize >= tableau.rows() || column as usize >= tableau.columns() {
        return None;
    }
    if tableau.cell(row, column).is_zero() {
        return None;
    }
    Some(tableau.pivot(row, column))
}

// The place that a pivot shows.
fn place_shown(tableau: &mut Tableau, row: u32, column: u32) -> Option<TablePlace> {
    match pivoted(tableau, row, column) {
        Some(Err(cell)) => Some(TablePlace::Cell {
            row: cell.row,
            col: cell.col,
        }),
        Some(Ok(())) | None => None,
    }
}

// Whether a pivot in the row shows the place.
fn is_shown(
    alloc: Global,
    tableau: &Tableau,
    row: u32,
    at: TablePlace,
) -> Result<bool, AllocError> {
    for column in 0..tableau.columns() {
        let mut copied = tableau.copy(alloc)?;
        if place_shown(&mut copied, row, column as u32) == Some(at) {
            return Ok(true);
        }
    }
    Ok(false)
}

// Whether some pivot after the path shows the place.
fn is_found(alloc: Global, shown: &RangeAt) -> Result<bool, AllocError> {
    match replayed(alloc, shown.path.items())? {
        None => Ok(false),
        Some(tableau) => {
            for row in 0..tableau.rows() {
                if is_shown(alloc, &tableau, row as u32, shown.at)? {
                    return Ok(true);
                }
            }
            Ok(false)
        }
    }
}

// ---- the rows
#[derive(Clone, Copy)]
enum Case {
    Root,
    Child(bool),
    Leaf(bool, bool),
    Equated,
    Bare,
    Barred,
}

fn tells(alloc: Global, case: Case) -> Result<Told, AllocError> {
    match case {
        Case::Root => at_root(alloc),
        Case::Child(one) => at_child(alloc, one),
        Case::Leaf(one, other) => at_leaf(alloc, one, other),
        Case::Equated => equated_tells(alloc),
        Case::Bare => bare_tells(alloc),
        Case::Barred => barred_tells(alloc),
    }
}

const ROWS: [(Case, Told); 8] = [
    (Case::Root, Told::Cost(-4, 1)),
    (Case::Child(true), Told::Cost(-4, 1)),
    (Case::Leaf(true, false), Told::Cost(-3, 1)),
    (Case::Child(false), Told::Cost(-2, 1)),
    (Case::Leaf(true, true), Told::Never),
    (Case::Equated, Told::Cost(1, 3)),
    (Case::Bare, Told::Cost(-5, 1)),
    (Case::Barred, Told::Never),
];

#[test]
fn answers_at_nodes(rt: HostRuntime) -> Result<(), Fail> {
    let alloc = rt.alloc();
    for k in 0..ROWS.len() {
        let (case, told) = ROWS[k];
        assert_eq!(rt; tells(alloc, case)?, told);
    }
    assert_eq!(rt; root_number(alloc, 1)?, Some((2, 3)));
    assert_eq!(rt; root_number(alloc, 2)?, Some((1, 1)));
    Ok(())
}

const ROOT: [(u32, u32); 3] = [(1, 2), (0, 3), (1, 1)];

const LOW: [(u32, u32); 4] = [(1, 2), (0, 3), (1, 1), (1, 3)];

const HIGH: [(u32, u32); 4] = [(1, 2), (0, 3), (1, 1), (1, 1)];

#[test]
fn paths_at_nodes(rt: HostRuntime) -> Result<(), Fail> {
    let alloc = rt.alloc();
    assert_eq!(rt; goes(alloc, false, &ROOT, &LOW)?, true);
    assert_eq!(rt; goes(alloc, true, &ROOT, &HIGH)?, true);
    assert_eq!(rt; begins(alloc, false, &[(1, 2), (0, 3), (1, 3)])?, true);
    assert_eq!(rt; begins(alloc, true, &[(1, 2), (0, 3)])?, true);
    let shown = stuck_at(alloc)?.ok_or("the decaying state was not stuck")?;
    assert_eq!(rt; is_found(alloc, &shown)?, true);
    Ok(())
}
