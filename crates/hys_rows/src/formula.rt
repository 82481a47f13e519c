ghost use Rattle.std.specs.Prelude.{◌≡◌, ◌≤◌, ◌<◌, ◌+◌, ◌++◌, ◌^◌, IfOk};
ghost use Rattle.hys_formula.specs.Formulas.{tree_of, connectives};
ghost use Rattle.hys_logic.specs.declared.usage.Use.TheVariants.{Read, Define, Require};
ghost use Rattle.hys_logic.specs.Literals.{column_in};
ghost use Rattle.hys_logic.specs.Meanings.{HaveColumns};
ghost use Rattle.hys_logic.specs.Uses.{fresh_count, IsFree};
ghost use Rattle.hys_rows.specs.Parts.{literal_form};
ghost use Rattle.hys_rows.specs.Adding.{AddsFormula};

use crate::added::Added;
use hys_base::List;
use hys_formula::Formula;
use hys_lin::Row;
use hys_logic::{define_rows, must_rows, rows_of};
use std::alloc::{AllocError, Global};

// Puts rows behind others.
fn add_all(made: List<Row>, rows: &mut Vec<Row>) -> Result<(), AllocError>
    ensures { IfOk result (λ _. rows.new.items ≡ rows.old.items ++ made) }
{
    let mut more = made.into_vec();
    rows.append(&mut more)?;
    Ok(())
}

/// Adds the rows of a formula whose truth is read off a literal. The form is that literal.
pub fn add_read(
    alloc: Global,
    formula: &Formula,
    columns: &[u32],
    first_free: u32,
    rows: &mut Vec<Row>,
) -> Result<Added, AllocError>
    requires names { HaveColumns columns.now first_free (tree_of formula.now) }
    requires room { first_free + connectives (tree_of formula.now) ≤ 2 ^ 32 }
    requires count { connectives (tree_of formula.now) < 2 ^ 32 }
    ensures added { IfOk result (λ _. AddsFormula Read columns.now first_free formula.now rows.old rows.new) }
    ensures fresh { IfOk result (λ a. a.fresh ≡ fresh_count Read (column_in columns.now) (tree_of formula.now)) }
    ensures form { IfOk result (λ a. a.form ≡ literal_form columns.now first_free formula.now) }
{
    let logic = rows_of(alloc, formula, columns, first_free)?;
    add_all(logic.rows, rows)?;
    Ok(Added {
        fresh: logic.fresh,
        form: logic.literal,
    })
}

/// Adds the rows of a formula that defines the column, and answers the number of fresh ones.
pub fn add_defined(
    alloc: Global,
    formula: &Formula,
    columns: &[u32],
    own: u32,
    first_free: u32,
    rows: &mut Vec<Row>,
) -> Result<u32, AllocError>
    requires names { HaveColumns columns.now first_free (tree_of formula.now) }
    requires free { IsFree (Define own) columns.now first_free (tree_of formula.now) }
    requires room { first_free + connectives (tree_of formula.now) ≤ 2 ^ 32 }
    requires count { connectives (tree_of formula.now) < 2 ^ 32 }
    ensures added { IfOk result (λ _. AddsFormula (Define own) columns.now first_free formula.now rows.old rows.new) }
    ensures fresh { IfOk result (λ n. n ≡ fresh_count (Define own) (column_in columns.now) (tree_of formula.now)) }
{
    let logic = define_rows(alloc, formula, columns, own, first_free)?;
    add_all(logic.rows, rows)?;
    Ok(logic.fresh)
}

/// Adds the rows of a formula that is required, and answers the number of fresh columns.
pub fn add_required(
    alloc: Global,
    formula: &Formula,
    columns: &[u32],
    first_free: u32,
    rows: &mut Vec<Row>,
) -> Result<u32, AllocError>
    requires names { HaveColumns columns.now first_free (tree_of formula.now) }
    requires room { first_free + connectives (tree_of formula.now) ≤ 2 ^ 32 }
    requires count { connectives (tree_of formula.now) < 2 ^ 32 }
    ensures added { IfOk result (λ _. AddsFormula Require columns.now first_free formula.now rows.old rows.new) }
    ensures fresh { IfOk result (λ n. n ≡ fresh_count Require (column_in columns.now) (tree_of formula.now)) }
{
    let logic = must_rows(alloc, formula, columns, first_free)?;
    add_all(logic.rows, rows)?;
    Ok(logic.fresh)
}
