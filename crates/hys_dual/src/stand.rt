ghost use Rattle.std.specs.Prelude.{◌≡◌, ◌≢◌, ◌+◌, ◌<◌, ◌^◌, ℕ, length, IfOk};
ghost use Rattle.hys_simplex.specs.Tableau.{IsPlaced};
ghost use Rattle.hys_tab.specs.Table.{tableau_of, variable_of};
ghost use Rattle.hys_dual.specs.Standing.{stand_at, AllStand};

use hys_relax::Var;
use hys_tab::Tableau;
use std::alloc::{AllocError, Global};

/// Where a variable stands: in the basis, in a row, or outside it, in a column.
#[derive(Clone, Copy, Debug)]
pub enum Stand {
    Basic(u32),
    Outside(u32),
}

/// Where each variable stands, by its number: first the columns, then the slacks.
pub fn stands(alloc: Global, tableau: &Tableau) -> Result<Vec<Stand>, AllocError>
    requires placed { IsPlaced (length tableau.now.outsides) (length tableau.now.basics) (tableau_of tableau.now) }
    ensures long { IfOk result (λ s. length s.items ≡ length tableau.now.outsides + length tableau.now.basics) }
    ensures each { IfOk result (λ s. AllStand (tableau_of tableau.now) s.items) }
{
    let rows = tableau.rows();
    let columns = tableau.columns();
    let mut list = vec![in alloc; Stand::Basic(0); columns + rows]?;
    for row in 0..rows {
        put(
            &mut list,
            basic_number(tableau, row as u32),
            Stand::Basic(row as u32),
        );
    }
    for column in 0..columns {
        put(
            &mut list,
            outside_number(tableau, column as u32),
            Stand::Outside(column as u32),
        );
    }
    Ok(list)
}

// Puts where the variable stands.
fn put(list: &mut Vec<Stand>, variable: usize, stand: Stand)
    requires { variable < length list.old.items }
    ensures long { length list.new.items ≡ length list.old.items }
    ensures there { stand_at list.new.items variable ≡ stand }
    ensures others { (u : ℕ) → u ≢ variable → stand_at list.new.items u ≡ stand_at list.old.items u }
{
    list[variable] = stand;
}

/// The number of the variable that is basic in the row.
pub fn basic_number(tableau: &Tableau, row: u32) -> usize
    requires { row < length tableau.now.basics }
    ensures { result ≡ (tableau_of tableau.now).basic row }
{
    number(tableau.columns(), tableau.basic(row))
}

/// The number of the variable that stands in the column.
pub fn outside_number(tableau: &Tableau, column: u32) -> usize
    requires { column < length tableau.now.outsides }
    ensures { result ≡ (tableau_of tableau.now).outside column }
{
    number(tableau.columns(), tableau.outside(column))
}

// The number of a variable, where there are so many columns.
fn number(columns: usize, variable: Var) -> usize
    requires { columns < 2 ^ 32 }
    ensures { (u : ℕ) → variable ≡ variable_of columns u → result ≡ u }
{
    match variable {
        Var::Column(column) => column as usize,
        Var::Slack(row) => columns + row as usize,
    }
}
