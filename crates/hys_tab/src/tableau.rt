ghost use Rattle.std.specs.Prelude.{◌≡◌, ◌≢◌, ◌+◌, ◌^◌, ◌<◌, ◌≤◌, ℕ, length, IfOk, IfErr};
ghost use Rattle.std.specs.List.{slice_index_or};
ghost use Rattle.hys_number.specs.Ops.{whole};
ghost use Rattle.hys_lin.specs.Problem.{IsProblem};
ghost use Rattle.hys_relax.specs.LinearProgram.{linear_program};
ghost use Rattle.hys_simplex.specs.Tableau.{start as start_of, pivot as pivot_of};
ghost use Rattle.hys_simplex.specs.Alike.{IsAlike};
ghost use Rattle.hys_relax.specs.Bound.{AreMultipliers};
ghost use Rattle.hys_tab.specs.Table.{tableau_of, variable_of, multipliers_of};
ghost use Rattle.hys_tab.specs.Fits.{IsFirstUnfit, FitsUnder};

use crate::cells::{Pivot, first_unfit, write_rows};
use crate::reading::{negated_costs, without_zeros};
use crate::slack_basis::fill;
use hys_frac::{Frac, List};
use hys_lin::Problem;
use hys_relax::{Multipliers, Var};
use std::alloc::{AllocError, Global};
use std::marker::Model;

// A table has fewer rows, and fewer columns, without those of the cost and the constants.
const MOST: usize = 0xffff_ffff;

/// The first cell, row by row, whose new number under a pivot, or the product that is subtracted to
/// make it, doesn't fit.
#[derive(Clone, Copy, Debug, PartialEq, Eq)]
pub struct Cell {
    pub row: u32,
    pub col: u32,
}

/// The tableau of a linear problem: a row for each of its rows and a last one for the cost, a
/// column for each of its columns and a last one for the constants. A cell takes 16 bytes.
#[derive(Debug, Drop)]
pub struct Tableau {
    cells: Vec<Frac>,
    basic: Vec<usize>,
    outside: Vec<usize>,
}

impl Model for Tableau {
    ghost use Rattle.hys_tab.specs.Table.{Table, table_code, IsTable};

    ghost Value = { Table };

    ghost coded = { table_code };

    ghost view = { λ t. record { cells = t.cells.items; basics = t.basic.items; outsides = t.outside.items } };

    ghost invariant = { λ t. IsTable (record { cells = t.cells.items; basics = t.basic.items; outsides = t.outside.items }) };
}

impl Tableau {
    /// The number of rows, without that of the cost.
    pub fn rows(&self) -> usize
        ensures value { result ≡ length self.now.basics }
        ensures below { result < 2 ^ 32 }
    {
        self.basic.len()
    }

    /// The number of columns, without that of the constants.
    pub fn columns(&self) -> usize
        ensures value { result ≡ length self.now.outsides }
        ensures below { result < 2 ^ 32 }
    {
        self.outside.len()
    }

    /// The cell at the row and the column; the row after the others is that of the cost, the column
    /// after the others that of the constants.
    pub fn cell(&self, row: u32, col: u32) -> Frac
        requires row { row ≤ length self.now.basics }
        requires col { col ≤ length self.now.outsides }
        ensures { result ≡ (tableau_of self.now).cell row col }
    {
        self.cells[row as usize * (self.outside.len() + 1) + col as usize]
    }

    /// The variable that is basic in the row.
    pub fn basic(&self, row: u32) -> Var
        requires { row < length self.now.basics }
        ensures { result ≡ variable_of (length self.now.outsides) ((tableau_of self.now).basic row) }
    {
        variable(self.outside.len(), self.basic[row as usize])
    }

    /// The variable outside the basis that stands in the column.
    pub fn outside(&self, col: u32) -> Var
        requires { col < length self.now.outsides }
        ensures { result ≡ variable_of (length self.now.outsides) ((tableau_of self.now).outside col) }
    {
        variable(self.outside.len(), self.outside[col as usize])
    }

    /// The exact pivot at the row and the column, whose cell isn't 0. Where a number doesn't fit the
    /// tableau stays, and the first such cell is shown.
    pub fn pivot(&mut self, row: u32, col: u32) -> Result<(), Cell>
        requires row { row < length self.old.basics }
        requires col { col < length self.old.outsides }
        requires some { (tableau_of self.old).cell row col ≢ whole 0 }
        ensures done { IfOk result (λ _. IsAlike (tableau_of self.new) (pivot_of (tableau_of self.old) row col)) }
        ensures fits { IfOk result (λ _. FitsUnder (tableau_of self.old) row col) }
        ensures first { IfErr result (λ at. IsFirstUnfit (tableau_of self.old) row col at.row at.col) }
        ensures same { IfErr result (λ _. self.new ≡ self.old) }
    {
        let pivot = Pivot {
            height: self.basic.len() + 1,
            width: self.outside.len() + 1,
            row: row as usize,
            column: col as usize,
        };
        match first_unfit(self.cells.as_slice(), pivot) {
            Some((i, j)) => Err(Cell {
                row: i as u32,
                col: j as u32,
            }),
            None => {
                write_rows(self.cells.as_mut_slice(), pivot);
                let leaving = self.basic[pivot.row];
                self.basic[pivot.row] = self.outside[pivot.column];
                self.outside[pivot.column] = leaving;
                Ok(())
            }
        }
    }

    /// The multipliers that are read off the cost row: of each row the negated cost cell of its slack,
    /// without those that are 0. They are the weights by which the cost row is a sum of the problem's.
    pub fn multipliers(&self, alloc: Global) -> Result<Multipliers, AllocError>
        ensures value { IfOk result (λ m. m.pairs ≡ multipliers_of (tableau_of self.now)) }
        ensures rise { IfOk result (λ m. AreMultipliers m.pairs) }
        ensures few { IfOk result (λ m. length m.pairs ≤ length self.now.outsides) }
    {
        let rows = self.basic.len();
        let costs = negated_costs(alloc, self.cells.as_slice(), self.outside.as_slice(), rows)?;
        let pairs = without_zeros(alloc, costs.as_slice())?;
        Ok(Multipliers {
            pairs: List::of(pairs),
        })
    }

    /// The same tableau, in memory of its own.
    pub fn copy(&self, alloc: Global) -> Result<Tableau, AllocError>
        ensures { IfOk result (λ t. t ≡ self.now) }
    {
        let cells = Vec::from_slice(alloc, self.cells.as_slice())?;
        let basic = Vec::from_slice(alloc, self.basic.as_slice())?;
        let outside = Vec::from_slice(alloc, self.outside.as_slice())?;
        Ok(Tableau {
            cells,
            basic,
            outside,
        })
    }
}

/// The tableau of the slack basis: a row of the problem has its factors and its bound, the cost row
/// the negated factors and the constant of the cost. More than 2^32 - 2 rows or columns are too many.
pub fn start(alloc: Global, problem: &Problem) -> Result<Tableau, AllocError>
    requires { IsProblem problem.now }
    ensures { IfOk result (λ t. IsAlike (tableau_of t) (start_of (linear_program problem.now))) }
{
    let rows = problem.rows.items().len();
    let columns = problem.boxes.items().len();
    if rows >= MOST || columns >= MOST {
        return Err(AllocError);
    }
    match (rows + 1).checked_mul(columns + 1) {
        None => Err(AllocError),
        Some(size) => {
            let mut cells = vec![in alloc; Frac::whole(0); size]?;
            fill(cells.as_mut_slice(), problem);
            let basic = numbers(alloc, columns, rows)?;
            let outside = numbers(alloc, 0, columns)?;
            Ok(Tableau {
                cells,
                basic,
                outside,
            })
        }
    }
}

// So many numbers, from the first on.
fn numbers(alloc: Global, first: usize, count: usize) -> Result<Vec<usize>, AllocError>
    requires { first + count < 2 ^ 64 }
    ensures length { IfOk result (λ v. length v.items ≡ count) }
    ensures each { IfOk result (λ v. (i : ℕ) → i < count → slice_index_or v.items i 0 ≡ first + i) }
{
    let mut list = vec![in alloc; 0; count]?;
    for i in 0..count {
        list[i] = first + i;
    }
    Ok(list)
}

// The variable of a number, where there are so many columns.
fn variable(columns: usize, number: usize) -> Var
    requires columns { columns < 2 ^ 32 }
    requires slack { number < columns + 2 ^ 32 }
    ensures { result ≡ variable_of columns number }
{
    if number < columns {
        Var::Column(number as u32)
    } else {
        Var::Slack((number - columns) as u32)
    }
}
