//! A worked problem in memory, and trees of plain numbers.

ghost use Rattle.std.specs.Prelude.{◌≡◌, ◌+◌, ◌<◌, ◌^◌, length, IfOk};
ghost use Rattle.hys_number.specs.Ops.{neg, whole};
ghost use Rattle.hys_lin.specs.Problem.{IsProblem};
ghost use Rattle.hys_relax.specs.Bound.{weights, AreMultipliers};
ghost use Rattle.hys_relax.specs.Node.{unit_box};
ghost use Rattle.hys_relax.specs.Worked.{worked};
ghost use Rattle.hys_tree.specs.Multiplied.{AreMultiplied, IsMultiplied};

use hys_base::List;
use hys_frac::Frac;
use hys_lin::{Affine, Interval, Point, Problem, Row, Term};
use hys_relax::Multipliers;
use hys_tree::{Best, Tree, TreePlace};
use std::alloc::{AllocError, Global};

fn interval(low: Frac, high: Frac) -> Interval
    ensures { result ≡ record { low = low; high = high } }
{
    Interval { low, high }
}

fn unit() -> Interval
    ensures { result ≡ unit_box }
{
    interval(Frac::whole(0), Frac::whole(1))
}

fn minus(number: u32) -> Frac
    ensures { result ≡ neg (whole number) }
{
    Frac::whole(number).neg()
}

// Columns with their factors as terms.
fn terms(alloc: Global, pairs: &[(u32, Frac)]) -> Result<List<Term>, AllocError>
    ensures { IfOk result (λ r. r ≡ weights pairs.now) }
{
    let mut list = Vec::new(alloc);
    for k in 0..pairs.len() {
        let (column, factor) = pairs[k];
        list.push(Term { column, factor })?;
    }
    Ok(List::of(list))
}

fn row(alloc: Global, pairs: &[(u32, Frac)], bound: Frac, eq: bool) -> Result<Row, AllocError>
    ensures { IfOk result (λ r. r ≡ record { terms = weights pairs.now; bound = bound; eq = eq }) }
{
    Ok(Row {
        terms: terms(alloc, pairs)?,
        bound,
        eq,
    })
}

fn cost(alloc: Global, pairs: &[(u32, Frac)]) -> Result<Affine, AllocError>
    ensures { IfOk result (λ f. f ≡ record { terms = weights pairs.now; constant = whole 0 }) }
{
    Ok(Affine {
        terms: terms(alloc, pairs)?,
        constant: Frac::whole(0),
    })
}

fn worked_boxes(alloc: Global) -> Result<List<Interval>, AllocError>
    ensures { IfOk result (λ r. r ≡ worked.boxes) }
{
    let mut boxes = Vec::new(alloc);
    boxes.push(interval(Frac::whole(0), Frac::whole(0)))?;
    boxes.push(unit())?;
    boxes.push(unit())?;
    boxes.push(interval(Frac::whole(0), Frac::whole(10)))?;
    Ok(List::of(boxes))
}

fn worked_rows(alloc: Global) -> Result<List<Row>, AllocError>
    ensures { IfOk result (λ r. r ≡ worked.rows) }
{
    let demand = [(1, Frac::whole(3)), (2, Frac::whole(2))];
    let change = [
        (0, minus(1)),
        (1, minus(3)),
        (2, minus(2)),
        (3, Frac::whole(1)),
    ];
    let mut rows = Vec::new(alloc);
    rows.push(row(alloc, &demand, Frac::whole(4), false)?)?;
    rows.push(row(alloc, &change, Frac::whole(0), true)?)?;
    Ok(List::of(rows))
}

fn worked_problem(alloc: Global) -> Result<Problem, AllocError>
    ensures { IfOk result (λ p. p ≡ worked) }
{
    let mut branch = Vec::new(alloc);
    branch.push(1)?;
    branch.push(2)?;
    Ok(Problem {
        boxes: worked_boxes(alloc)?,
        rows: worked_rows(alloc)?,
        cost: cost(alloc, &[(3, minus(1))])?,
        branch: List::of(branch),
    })
}

/// A plan of one step with two switches.
pub fn plan(alloc: Global) -> Result<Problem, AllocError>
    ensures { IfOk result (λ p. IsProblem p) }
{
    let problem = worked_problem(alloc)?;
    Ok(problem)
}

/// A place of a tree with one multiplier at most: its row, the multiplier and the depth.
#[derive(Clone, Copy, Debug)]
pub enum Node {
    Inner(u32),
    Cost(u32, i64, u32),
    Never(u32, i64, u32),
}

/// The fraction of a whole number.
pub fn number(whole: i64) -> Frac {
    match Frac::new(whole, 1) {
        Some(number) => number,
        None => Frac::whole(0),
    }
}

// The multiplier of one row, left out where it is 0.
fn multipliers(alloc: Global, row: u32, factor: Frac) -> Result<Multipliers, AllocError>
    ensures { IfOk result (λ m. AreMultipliers m.pairs) }
{
    let mut pairs = Vec::new(alloc);
    if !factor.is_zero() {
        pairs.push((row, factor))?;
    }
    Ok(Multipliers {
        pairs: List::of(pairs),
    })
}

fn place(alloc: Global, node: Node) -> Result<TreePlace, AllocError>
    ensures { IfOk result (λ p. IsMultiplied p) }
{
    match node {
        Node::Inner(column) => Ok(TreePlace::Inner(column)),
        Node::Cost(row, factor, depth) => {
            let multipliers = multipliers(alloc, row, number(factor))?;
            Ok(TreePlace::Cost(multipliers, depth))
        }
        Node::Never(row, factor, depth) => {
            let multipliers = multipliers(alloc, row, number(factor))?;
            Ok(TreePlace::Never(multipliers, depth))
        }
    }
}

/// The tree with these places.
pub fn tree(alloc: Global, nodes: &[Node]) -> Result<Tree, AllocError>
    ensures long { IfOk result (λ t. length t.places ≡ length nodes.now) }
    ensures multipliers { IfOk result (λ t. AreMultiplied t.places) }
{
    let mut places = Vec::new(alloc);
    for k in 0..nodes.len() {
        let place = place(alloc, nodes[k])?;
        places.push(place)?;
    }
    Ok(Tree {
        places: List::of(places),
    })
}

/// A point of whole numbers with its cost.
pub fn best(alloc: Global, values: &[i64], cost: i64) -> Result<Best, AllocError> {
    let mut list = Vec::new(alloc);
    for k in 0..values.len() {
        list.push(number(values[k]))?;
    }
    Ok(Best {
        point: Point {
            values: List::of(list),
        },
        cost: number(cost),
    })
}
