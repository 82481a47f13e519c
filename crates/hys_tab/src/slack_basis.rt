ghost use Rattle.std.specs.Prelude.{◌≡◌, ◌+◌, ◌*◌, ◌<◌, length, true};
ghost use Rattle.hys_number.specs.Ops.{whole, fits};
ghost use Rattle.hys_lin.specs.Sums.{EachColumn};
ghost use Rattle.hys_lin.specs.Problem.{IsProblem};
ghost use Rattle.hys_tab.specs.Cells.{cell_at, slack_cell, slack_row, turned as turned_of, AllFit, AreCells};
ghost use Rattle.hys_tab.specs.Cells.{IsRowOf, AreBlankFrom, OtherRowsStay, OtherCellsStay, TermsBelow};
ghost use Rattle.hys_tab.specs.Cells.{IsBlankFor, HoldsStart};

use hys_frac::Frac;
use hys_lin::{Problem, Row, Term};

/// Writes the cells of the slack basis over cells that are 0.
pub fn fill(cells: &mut [Frac], problem: &Problem)
    requires problem { IsProblem problem.now }
    requires shape { length cells.old ≡ (length problem.now.rows + 1) * (length problem.now.boxes + 1) }
    requires blank { IsBlankFor problem.now cells.old }
    ensures shape { length cells.new ≡ length cells.old }
    ensures there { HoldsStart problem.now cells.new }
    ensures fit { AllFit cells.new (length problem.now.rows + 1) (length problem.now.boxes + 1) }
{
    let rows = problem.rows.items();
    let height = rows.len() + 1;
    let width = problem.boxes.items().len() + 1;
    fill_rows(cells, height, width, rows);
    fill_row(
        cells,
        height,
        width,
        rows.len(),
        problem.cost.terms.items(),
        problem.cost.constant,
        true,
    );
}

// The first rows of a table of zeros filled with the factors and bounds of these.
fn fill_rows(cells: &mut [Frac], height: usize, width: usize, rows: &[Row])
    requires shape { length cells.old ≡ height * width }
    requires few { length rows.now < height }
    requires column { 0 < width }
    requires below { TermsBelow width rows.now }
    requires blank { AreCells cells.old height width (λ i j. whole 0) }
    ensures shape { length cells.new ≡ length cells.old }
    ensures there { AreCells cells.new (length rows.now) width (slack_row width rows.now) }
    ensures blank { AreBlankFrom (length rows.now) cells.new height width }
    ensures fit { AllFit cells.new height width }
{
    for i in 0..rows.len() {
        let row = &rows[i];
        fill_row(cells, height, width, i, row.terms.items(), row.bound, false);
    }
}

// A row of zeros filled with the factors of terms, negated if so wished, and a constant.
fn fill_row(
    cells: &mut [Frac],
    height: usize,
    width: usize,
    i: usize,
    terms: &[Term],
    constant: Frac,
    negated: bool,
)
    requires shape { length cells.old ≡ height * width }
    requires row { i < height }
    requires column { 0 < width }
    requires below { EachColumn (λ c. c + 1 < width) terms.now }
    requires blank { IsRowOf cells.old width i (λ j. whole 0) }
    requires fit { AllFit cells.old height width }
    ensures shape { length cells.new ≡ length cells.old }
    ensures there { IsRowOf cells.new width i (slack_cell width terms.now constant negated) }
    ensures others { OtherRowsStay cells.old cells.new height width i }
    ensures fit { AllFit cells.new height width }
{
    put(cells, height, width, i, width - 1, constant);
    let mut left = terms.len();
    while left > 0 {
        left -= 1;
        let factor = terms[left].factor;
        let column = terms[left].column as usize;
        put(cells, height, width, i, column, turned(negated, factor));
    }
}

// The number, negated where so wished.
fn turned(negated: bool, number: Frac) -> Frac
    ensures { result ≡ turned_of negated number }
{
    if negated { number.neg() } else { number }
}

// The number put at row `i` and column `j`.
fn put(cells: &mut [Frac], height: usize, width: usize, i: usize, j: usize, number: Frac)
    requires shape { length cells.old ≡ height * width }
    requires row { i < height }
    requires column { j < width }
    requires fit { AllFit cells.old height width }
    ensures shape { length cells.new ≡ length cells.old }
    ensures there { cell_at cells.new width i j ≡ number }
    ensures others { OtherCellsStay cells.old cells.new height width i j }
    ensures fit { AllFit cells.new height width }
{
    cells[i * width + j] = fitting(number);
}

// The number, whose two parts are below 2^63 as those of each `Frac`.
fn fitting(number: Frac) -> Frac
    ensures same { result ≡ number }
    ensures fits { fits number ≡ true }
{
    let _parts = (number.num(), number.den());
    number
}
