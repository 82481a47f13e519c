ghost use Rattle.std.specs.Prelude.{◌≡◌, ◌+◌, ◌^◌, ◌≤◌, ◌<◌, IfOk, true, false};
ghost use Rattle.hys_formula.specs.Formulas.{tree_of, connectives};
ghost use Rattle.hys_logic.specs.declared.usage.Use.TheVariants.{Read, Define, Require};
ghost use Rattle.hys_logic.specs.Literals.{column_in};
ghost use Rattle.hys_logic.specs.Meanings.{HaveColumns, NamesWithin, IsBelow};
ghost use Rattle.hys_logic.specs.Tables.{is_short, names_of};
ghost use Rattle.hys_logic.specs.Uses.{fresh_count, own_count, target_of, literal_under, literal_over, AddsTied, AddsLogic, IsNext, IsFree, HaveSolutions, HasTruth, HasLiteral, HasRows, AreFew, IsSmall};

use crate::formula::{Made, add_rows};
use crate::literal::{Literal, Logic};
use crate::row::{minus, nothing, pair_of, plus};
use crate::table::{Setting, add_table, connectives_of, short_names};
use hys_base::List;
use hys_formula::Formula;
use hys_lin::Row;
use std::alloc::{AllocError, Global};

/// What a formula is turned into rows for: its truth is read off a literal, defines a column, or
/// is required.
#[derive(Clone, Copy, Debug, PartialEq, Eq)]
pub enum Use {
    Read,
    Define(u32),
    Require,
}

impl Use {
    // The literal, where one was read off.
    fn literal(self, read: Literal) -> Literal
        ensures { result ≡ literal_under self read }
    {
        match self {
            Use::Read => read,
            Use::Define(column) => Literal::Column {
                column,
                negated: false,
            },
            Use::Require => Literal::Fixed(true),
        }
    }

    // The target column of a truth table.
    fn target(self, first_free: u32) -> Option<u32>
        ensures { result ≡ target_of self first_free }
    {
        match self {
            Use::Read => Some(first_free),
            Use::Define(column) => Some(column),
            Use::Require => None,
        }
    }

    // The number of fresh columns of a truth table.
    fn fresh(self) -> u64
        ensures { result ≡ own_count self }
    {
        match self {
            Use::Read => 1,
            Use::Define(_) => 0,
            Use::Require => 0,
        }
    }
}

/// The rows of a formula whose truth is read off the literal. `columns` gives each name's column,
/// below `first_free`. For each choice of 0 or 1 in the names' columns the rows have exactly one
/// solution with 0 or 1 in the fresh columns: there these have the stated truths, and the literal
/// has the formula's. A short formula has one fresh column, which its truth table defines; any
/// other has one for each connective, in post-order.
pub fn rows_of(
    alloc: Global,
    formula: &Formula,
    columns: &[u32],
    first_free: u32,
) -> Result<Logic, AllocError>
    requires names { HaveColumns columns.now first_free (tree_of formula.now) }
    requires room { first_free + connectives (tree_of formula.now) ≤ 2 ^ 32 }
    requires count { connectives (tree_of formula.now) < 2 ^ 32 }
    ensures solution { IfOk result (λ l. HaveSolutions Read columns.now first_free (tree_of formula.now) l) }
    ensures literal { IfOk result (λ l. HasTruth Read columns.now first_free (tree_of formula.now) l) }
    ensures literal_stated { IfOk result (λ l. HasLiteral Read columns.now first_free (tree_of formula.now) l) }
    ensures fresh { IfOk result (λ l. l.fresh ≡ fresh_count Read (column_in columns.now) (tree_of formula.now)) }
    ensures stated { IfOk result (λ l. HasRows Read columns.now first_free (tree_of formula.now) l) }
    ensures count { IfOk result (λ l. AreFew Read (tree_of formula.now) l) }
    ensures form { IfOk result (λ l. IsSmall l) }
    ensures below { IfOk result (λ l. IsBelow (first_free + l.fresh) l) }
{
    Ok(logic_of(alloc, Use::Read, formula, columns, first_free)?)
}

/// The rows that define a column, which is below `first_free` and no column of the formula. For
/// each choice of 0 or 1 in the names' columns and in `column` the rows have a solution with 0 or
/// 1 in the fresh columns exactly where `column` is the formula's truth, and then exactly one. The
/// literal is `column`.
pub fn define_rows(
    alloc: Global,
    formula: &Formula,
    columns: &[u32],
    column: u32,
    first_free: u32,
) -> Result<Logic, AllocError>
    requires names { HaveColumns columns.now first_free (tree_of formula.now) }
    requires defined { IsFree (Define column) columns.now first_free (tree_of formula.now) }
    requires room { first_free + connectives (tree_of formula.now) ≤ 2 ^ 32 }
    requires count { connectives (tree_of formula.now) < 2 ^ 32 }
    ensures solution { IfOk result (λ l. HaveSolutions (Define column) columns.now first_free (tree_of formula.now) l) }
    ensures literal { IfOk result (λ l. HasTruth (Define column) columns.now first_free (tree_of formula.now) l) }
    ensures literal_stated { IfOk result (λ l. HasLiteral (Define column) columns.now first_free (tree_of formula.now) l) }
    ensures fresh { IfOk result (λ l. l.fresh ≡ fresh_count (Define column) (column_in columns.now) (tree_of formula.now)) }
    ensures stated { IfOk result (λ l. HasRows (Define column) columns.now first_free (tree_of formula.now) l) }
    ensures count { IfOk result (λ l. AreFew (Define column) (tree_of formula.now) l) }
    ensures form { IfOk result (λ l. IsSmall l) }
    ensures below { IfOk result (λ l. IsBelow (first_free + l.fresh) l) }
{
    Ok(logic_of(alloc, Use::Define(column), formula, columns, first_free)?)
}

/// The rows that require a formula. For each choice of 0 or 1 in the names' columns they have a
/// solution with 0 or 1 in the fresh columns exactly where the formula is true, and then exactly
/// one. The literal is the constant 1.
pub fn must_rows(
    alloc: Global,
    formula: &Formula,
    columns: &[u32],
    first_free: u32,
) -> Result<Logic, AllocError>
    requires names { HaveColumns columns.now first_free (tree_of formula.now) }
    requires room { first_free + connectives (tree_of formula.now) ≤ 2 ^ 32 }
    requires count { connectives (tree_of formula.now) < 2 ^ 32 }
    ensures solution { IfOk result (λ l. HaveSolutions Require columns.now first_free (tree_of formula.now) l) }
    ensures literal { IfOk result (λ l. HasTruth Require columns.now first_free (tree_of formula.now) l) }
    ensures literal_stated { IfOk result (λ l. HasLiteral Require columns.now first_free (tree_of formula.now) l) }
    ensures fresh { IfOk result (λ l. l.fresh ≡ fresh_count Require (column_in columns.now) (tree_of formula.now)) }
    ensures stated { IfOk result (λ l. HasRows Require columns.now first_free (tree_of formula.now) l) }
    ensures count { IfOk result (λ l. AreFew Require (tree_of formula.now) l) }
    ensures form { IfOk result (λ l. IsSmall l) }
    ensures below { IfOk result (λ l. IsBelow (first_free + l.fresh) l) }
{
    Ok(logic_of(alloc, Use::Require, formula, columns, first_free)?)
}

/// The number of fresh columns that a formula takes under a use.
pub fn fresh_columns(
    alloc: Global,
    used: Use,
    formula: &Formula,
    columns: &[u32],
) -> Result<u32, AllocError>
    requires names { NamesWithin columns.now (tree_of formula.now) }
    requires count { connectives (tree_of formula.now) < 2 ^ 32 }
    ensures { IfOk result (λ n. n ≡ fresh_count used (column_in columns.now) (tree_of formula.now)) }
{
    match short_names(alloc, formula, columns)? {
        Some(_) => Ok(used.fresh() as u32),
        None => Ok(connectives_of(formula) as u32),
    }
}

// The rows of a formula under a use.
fn logic_of(
    alloc: Global,
    used: Use,
    formula: &Formula,
    columns: &[u32],
    first_free: u32,
) -> Result<Logic, AllocError>
    requires names { HaveColumns columns.now first_free (tree_of formula.now) }
    requires free { IsFree used columns.now first_free (tree_of formula.now) }
    requires room { first_free + connectives (tree_of formula.now) ≤ 2 ^ 32 }
    requires count { connectives (tree_of formula.now) < 2 ^ 32 }
    ensures solution { IfOk result (λ l. HaveSolutions used columns.now first_free (tree_of formula.now) l) }
    ensures literal { IfOk result (λ l. HasTruth used columns.now first_free (tree_of formula.now) l) }
    ensures literal_stated { IfOk result (λ l. HasLiteral used columns.now first_free (tree_of formula.now) l) }
    ensures fresh { IfOk result (λ l. l.fresh ≡ fresh_count used (column_in columns.now) (tree_of formula.now)) }
    ensures stated { IfOk result (λ l. HasRows used columns.now first_free (tree_of formula.now) l) }
    ensures count { IfOk result (λ l. AreFew used (tree_of formula.now) l) }
    ensures form { IfOk result (λ l. IsSmall l) }
    ensures below { IfOk result (λ l. IsBelow (first_free + l.fresh) l) }
{
    let mut rows = Vec::new(alloc);
    let made = add_logic(alloc, used, formula, columns, first_free, &mut rows)?;
    let literal = made.literal.form(alloc)?;
    Ok(Logic {
        rows: List::of(rows),
        literal,
        fresh: (made.next - u64::from(first_free)) as u32,
    })
}

// Adds the rows of a formula: its truth table where it is short, else a column for each connective.
fn add_logic(
    alloc: Global,
    used: Use,
    formula: &Formula,
    columns: &[u32],
    first_free: u32,
    rows: &mut Vec<Row>,
) -> Result<Made, AllocError>
    requires names { HaveColumns columns.now first_free (tree_of formula.now) }
    requires free { IsFree used columns.now first_free (tree_of formula.now) }
    requires room { first_free + connectives (tree_of formula.now) ≤ 2 ^ 32 }
    requires count { connectives (tree_of formula.now) < 2 ^ 32 }
    ensures literal { IfOk result (λ m. m.literal ≡ literal_over used columns.now first_free (tree_of formula.now)) }
    ensures next { IfOk result (λ m. IsNext used columns.now first_free (tree_of formula.now) m.next) }
    ensures added { IfOk result (λ _. AddsLogic used columns.now first_free formula.now rows.old rows.new) }
{
    match short_names(alloc, formula, columns)? {
        Some(names) => Ok(add_short(alloc, used, formula, columns, first_free, &names, rows)?),
        None => Ok(add_long(alloc, used, formula, columns, first_free, rows)?),
    }
}

// Adds the truth table of a short formula with these names.
fn add_short(
    alloc: Global,
    used: Use,
    formula: &Formula,
    columns: &[u32],
    first_free: u32,
    names: &[Setting],
    rows: &mut Vec<Row>,
) -> Result<Made, AllocError>
    requires names { HaveColumns columns.now first_free (tree_of formula.now) }
    requires free { IsFree used columns.now first_free (tree_of formula.now) }
    requires short { is_short (column_in columns.now) (tree_of formula.now) ≡ true }
    requires own { names.now ≡ names_of (column_in columns.now) (tree_of formula.now) }
    ensures literal { IfOk result (λ m. m.literal ≡ literal_over used columns.now first_free (tree_of formula.now)) }
    ensures next { IfOk result (λ m. IsNext used columns.now first_free (tree_of formula.now) m.next) }
    ensures added { IfOk result (λ _. AddsLogic used columns.now first_free formula.now rows.old rows.new) }
{
    let target = used.target(first_free);
    let mut made = Vec::new(alloc);
    add_table(alloc, formula, columns, target, names, &mut made, rows)?;
    Ok(Made {
        literal: used.literal(Literal::Column {
            column: first_free,
            negated: false,
        }),
        next: u64::from(first_free) + used.fresh(),
    })
}

// Adds the rows of a formula that isn't short, connective by connective.
fn add_long(
    alloc: Global,
    used: Use,
    formula: &Formula,
    columns: &[u32],
    first_free: u32,
    rows: &mut Vec<Row>,
) -> Result<Made, AllocError>
    requires names { HaveColumns columns.now first_free (tree_of formula.now) }
    requires free { IsFree used columns.now first_free (tree_of formula.now) }
    requires room { first_free + connectives (tree_of formula.now) ≤ 2 ^ 32 }
    requires long { is_short (column_in columns.now) (tree_of formula.now) ≡ false }
    ensures literal { IfOk result (λ m. m.literal ≡ literal_over used columns.now first_free (tree_of formula.now)) }
    ensures next { IfOk result (λ m. IsNext used columns.now first_free (tree_of formula.now) m.next) }
    ensures added { IfOk result (λ _. AddsLogic used columns.now first_free formula.now rows.old rows.new) }
{
    let made = add_rows(alloc, formula, columns, u64::from(first_free), rows)?;
    tie(alloc, used, made.literal, rows)?;
    Ok(Made {
        literal: used.literal(made.literal),
        next: made.next,
    })
}

// Adds the rows that tie a literal to its use.
fn tie(alloc: Global, used: Use, literal: Literal, rows: &mut Vec<Row>) -> Result<(), AllocError>
    ensures { IfOk result (λ _. AddsTied used literal rows.old.items rows.new.items) }
{
    match used {
        Use::Read => {}
        Use::Define(column) => {
            let own = Literal::Column {
                column,
                negated: false,
            };
            rows.push(pair_of(alloc, plus(own), minus(literal), 0)?)?;
            rows.push(pair_of(alloc, minus(own), plus(literal), 0)?)?;
        }
        Use::Require => rows.push(pair_of(alloc, minus(literal), nothing(), -1)?)?,
    }
    Ok(())
}
