ghost use Rattle.std.specs.Prelude.{◌≡◌, ◌≢◌, ◌<◌, ◌*◌, length, true, IsTrue, IsSome, IfSome, ◌↔◌};
ghost use Rattle.hys_number.specs.Ops.{◌-ₙ◌, ◌*ₙ◌, ◌/ₙ◌, whole};
ghost use Rattle.hys_tab.specs.Cells.{cell_at, AllFit, IsFirstIn, IsFirstAt, AreCells, IsRowOf};
ghost use Rattle.hys_tab.specs.Cells.{OtherRowsStay, OtherCellsStay, BothFit};
ghost use Rattle.hys_tab.specs.Cells.{fits_at, pivoted_at, AllFitUnder, RowFitsUnder};

use hys_frac::Frac;

/// A pivot at a row and a column of a table of so many rows and columns.
#[derive(Clone, Copy)]
pub struct Pivot {
    pub height: usize,
    pub width: usize,
    pub row: usize,
    pub column: usize,
}

/// The cell at row `i` and column `j`.
pub fn cell(cells: &[Frac], pivot: Pivot, i: usize, j: usize) -> Frac
    requires shape { length cells.now ≡ pivot.height * pivot.width }
    requires row_i { i < pivot.height }
    requires column_j { j < pivot.width }
    ensures { result ≡ cell_at cells.now pivot.width i j }
{
    cells[i * pivot.width + j]
}

/// The new number of a cell, if it and the product that is subtracted to make it fit.
pub fn new_cell(cells: &[Frac], pivot: Pivot, i: usize, j: usize) -> Option<Frac>
    requires shape { length cells.now ≡ pivot.height * pivot.width }
    requires row { pivot.row < pivot.height }
    requires column { pivot.column < pivot.width }
    requires row_i { i < pivot.height }
    requires column_j { j < pivot.width }
    requires some { cell_at cells.now pivot.width pivot.row pivot.column ≢ whole 0 }
    requires fit { AllFit cells.now pivot.height pivot.width }
    ensures value { IfSome result (λ x. x ≡ pivoted_at cells.now pivot.width pivot.row pivot.column i j) }
    ensures fits { IsSome result ↔ IsTrue (fits_at cells.now pivot.width pivot.row pivot.column i j) }
{
    let divisor = cell(cells, pivot, pivot.row, pivot.column);
    let old = cell(cells, pivot, i, j);
    if i == pivot.row {
        if j == pivot.column {
            return Frac::whole(1).div(divisor);
        }
        return old.div(divisor);
    }
    if j == pivot.column {
        return old.div(divisor.neg());
    }
    let across = cell(cells, pivot, pivot.row, j);
    if across.is_zero() {
        return Some(old);
    }
    less_multiple(old, cell(cells, pivot, i, pivot.column), across, divisor)
}

// A number less a factor times a quotient, if the product and the difference fit.
fn less_multiple(old: Frac, factor: Frac, across: Frac, divisor: Frac) -> Option<Frac>
    requires { divisor ≢ whole 0 }
    ensures value { IfSome result (λ x. x ≡ old -ₙ factor *ₙ (across /ₙ divisor)) }
    ensures fits { IsSome result ↔ BothFit (factor *ₙ (across /ₙ divisor)) (old -ₙ factor *ₙ (across /ₙ divisor)) }
{
    match factor.mul_div(across, divisor) {
        None => None,
        Some(product) => old.sub(product),
    }
}

/// The first column of row `i` whose new number, or the product in it, doesn't fit.
pub fn first_in_row(cells: &[Frac], pivot: Pivot, i: usize) -> Option<usize>
    requires shape { length cells.now ≡ pivot.height * pivot.width }
    requires row { pivot.row < pivot.height }
    requires column { pivot.column < pivot.width }
    requires row_i { i < pivot.height }
    requires some { cell_at cells.now pivot.width pivot.row pivot.column ≢ whole 0 }
    requires fit { AllFit cells.now pivot.height pivot.width }
    ensures { IsFirstIn (fits_at cells.now pivot.width pivot.row pivot.column i) pivot.width result }
{
    if i != pivot.row && cell(cells, pivot, i, pivot.column).is_zero() {
        return None;
    }
    for j in 0..pivot.width {
        if new_cell(cells, pivot, i, j).is_none() {
            return Some(j);
        }
    }
    None
}

/// The first place, row by row, whose new number, or the product in it, doesn't fit.
pub fn first_unfit(cells: &[Frac], pivot: Pivot) -> Option<(usize, usize)>
    requires shape { length cells.now ≡ pivot.height * pivot.width }
    requires row { pivot.row < pivot.height }
    requires column { pivot.column < pivot.width }
    requires some { cell_at cells.now pivot.width pivot.row pivot.column ≢ whole 0 }
    requires fit { AllFit cells.now pivot.height pivot.width }
    ensures { IsFirstAt (fits_at cells.now pivot.width pivot.row pivot.column) pivot.height pivot.width result }
{
    for i in 0..pivot.height {
        if let Some(j) = first_in_row(cells, pivot, i) {
            return Some((i, j));
        }
    }
    None
}

/// All rows pivoted, the pivot's own last.
pub fn write_rows(cells: &mut [Frac], pivot: Pivot)
    requires shape { length cells.old ≡ pivot.height * pivot.width }
    requires row { pivot.row < pivot.height }
    requires column { pivot.column < pivot.width }
    requires some { cell_at cells.old pivot.width pivot.row pivot.column ≢ whole 0 }
    requires all { AllFitUnder cells.old pivot.height pivot.width pivot.row pivot.column }
    requires fit { AllFit cells.old pivot.height pivot.width }
    ensures shape { length cells.new ≡ length cells.old }
    ensures done { AreCells cells.new pivot.height pivot.width (pivoted_at cells.old pivot.width pivot.row pivot.column) }
{
    for i in 0..pivot.height {
        if i != pivot.row {
            write_row(cells, pivot, i);
        }
    }
    write_row(cells, pivot, pivot.row);
}

// Row `i` pivoted, its cell in the pivot's column last. A row that has 0 there stays.
fn write_row(cells: &mut [Frac], pivot: Pivot, i: usize)
    requires shape { length cells.old ≡ pivot.height * pivot.width }
    requires row { pivot.row < pivot.height }
    requires column { pivot.column < pivot.width }
    requires row_i { i < pivot.height }
    requires some { cell_at cells.old pivot.width pivot.row pivot.column ≢ whole 0 }
    requires all { RowFitsUnder cells.old pivot.width pivot.row pivot.column i }
    requires fit { AllFit cells.old pivot.height pivot.width }
    ensures shape { length cells.new ≡ length cells.old }
    ensures there { IsRowOf cells.new pivot.width i (pivoted_at cells.old pivot.width pivot.row pivot.column i) }
    ensures others { OtherRowsStay cells.old cells.new pivot.height pivot.width i }
{
    if i != pivot.row && cell(cells, pivot, i, pivot.column).is_zero() {
        return;
    }
    for j in 0..pivot.width {
        if j != pivot.column {
            write_cell(cells, pivot, i, j);
        }
    }
    write_cell(cells, pivot, i, pivot.column);
}

// The new number put at its place.
fn write_cell(cells: &mut [Frac], pivot: Pivot, i: usize, j: usize)
    requires shape { length cells.old ≡ pivot.height * pivot.width }
    requires row { pivot.row < pivot.height }
    requires column { pivot.column < pivot.width }
    requires row_i { i < pivot.height }
    requires column_j { j < pivot.width }
    requires some { cell_at cells.old pivot.width pivot.row pivot.column ≢ whole 0 }
    requires here { fits_at cells.old pivot.width pivot.row pivot.column i j ≡ true }
    requires fit { AllFit cells.old pivot.height pivot.width }
    ensures shape { length cells.new ≡ length cells.old }
    ensures there { cell_at cells.new pivot.width i j ≡ pivoted_at cells.old pivot.width pivot.row pivot.column i j }
    ensures others { OtherCellsStay cells.old cells.new pivot.height pivot.width i j }
{
    if let Some(x) = new_cell(cells, pivot, i, j) {
        cells[i * pivot.width + j] = x;
    }
}
