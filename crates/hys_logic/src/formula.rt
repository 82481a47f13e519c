ghost use Rattle.std.specs.Prelude.{◌≡◌, ◌+◌, ◌^◌, ◌≤◌, IfOk};
ghost use Rattle.hys_formula.specs.Formulas.{tree_of, connectives};
ghost use Rattle.hys_formula.specs.declared.formula.Connective.TheVariants.{And, Iff};
ghost use Rattle.hys_logic.specs.Literals.{column_in, literal_of, LiteralBelow};
ghost use Rattle.hys_logic.specs.Rows.{Added, or_stated};
ghost use Rattle.hys_logic.specs.Meanings.{HaveColumns, AddsFormula, AddsConnective};

use crate::literal::Literal;
use crate::row::{Sign, minus, nothing, plus, row_of};
use hys_formula::{Connective, Formula};
use hys_lin::Row;
use std::alloc::{AllocError, Global};

// The literal of a formula whose rows were made, and the next free column.
#[derive(Clone, Copy, Debug, PartialEq, Eq)]
pub struct Made {
    pub literal: Literal,
    pub next: u64,
}

// Adds the rows of a formula whose connectives take the columns from `next` on.
pub fn add_rows(
    alloc: Global,
    formula: &Formula,
    columns: &[u32],
    next: u64,
    rows: &mut Vec<Row>,
) -> Result<Made, AllocError>
    requires names { HaveColumns columns.now next (tree_of formula.now) }
    requires room { next + connectives (tree_of formula.now) ≤ 2 ^ 32 }
    ensures literal { IfOk result (λ m. m.literal ≡ literal_of (column_in columns.now) next (tree_of formula.now)) }
    ensures next { IfOk result (λ m. m.next ≡ next + connectives (tree_of formula.now)) }
    ensures added { IfOk result (λ _.
        AddsFormula columns.now next (tree_of formula.now) rows.old.items rows.new.items) }
{
    match formula {
        Formula::Const(truth) => Ok(Made {
            literal: Literal::Fixed(*truth),
            next,
        }),
        Formula::Name(name) => Ok(Made {
            literal: Literal::Column {
                column: columns[*name as usize],
                negated: false,
            },
            next,
        }),
        Formula::Not(inner) => {
            let made = add_rows(alloc, inner, columns, next, rows)?;
            Ok(Made {
                literal: made.literal.opposite(),
                next: made.next,
            })
        }
        Formula::Join(connective, left, right) => {
            let first = add_rows(alloc, left, columns, next, rows)?;
            let second = add_rows(alloc, right, columns, first.next, rows)?;
            let column = second.next as u32;
            add_connective(
                alloc,
                *connective,
                first.literal,
                second.literal,
                column,
                rows,
            )?;
            Ok(Made {
                literal: Literal::Column {
                    column,
                    negated: false,
                },
                next: second.next + 1,
            })
        }
    }
}

// Adds the rows that tie a column to a connective of two literals.
fn add_connective(
    alloc: Global,
    connective: Connective,
    left: Literal,
    right: Literal,
    column: u32,
    rows: &mut Vec<Row>,
) -> Result<(), AllocError>
    requires left { LiteralBelow column left }
    requires right { LiteralBelow column right }
    ensures { IfOk result (λ _. AddsConnective connective left right column rows.old.items rows.new.items) }
{
    match connective {
        Connective::And => add_and(alloc, left, right, column, rows)?,
        Connective::Or => add_or(alloc, left, right, column, rows)?,
        Connective::Iff => add_iff(alloc, left, right, column, rows)?,
        Connective::Then => add_or(alloc, left.opposite(), right, column, rows)?,
        Connective::From => add_or(alloc, left, right.opposite(), column, rows)?,
    }
    Ok(())
}

fn add_and(
    alloc: Global,
    left: Literal,
    right: Literal,
    column: u32,
    rows: &mut Vec<Row>,
) -> Result<(), AllocError>
    requires left { LiteralBelow column left }
    requires right { LiteralBelow column right }
    ensures { IfOk result (λ _. AddsConnective And left right column rows.old.items rows.new.items) }
{
    rows.push(row_of(alloc, minus(left), nothing(), Sign::Plus, column, 0)?)?;
    rows.push(row_of(alloc, minus(right), nothing(), Sign::Plus, column, 0)?)?;
    rows.push(row_of(alloc, plus(left), plus(right), Sign::Minus, column, 1)?)?;
    Ok(())
}

fn add_or(
    alloc: Global,
    left: Literal,
    right: Literal,
    column: u32,
    rows: &mut Vec<Row>,
) -> Result<(), AllocError>
    requires left { LiteralBelow column left }
    requires right { LiteralBelow column right }
    ensures { IfOk result (λ _. Added rows.old.items rows.new.items (or_stated left right column) (column + 1)) }
{
    rows.push(row_of(alloc, plus(left), nothing(), Sign::Minus, column, 0)?)?;
    rows.push(row_of(alloc, plus(right), nothing(), Sign::Minus, column, 0)?)?;
    rows.push(row_of(alloc, minus(left), minus(right), Sign::Plus, column, 0)?)?;
    Ok(())
}

fn add_iff(
    alloc: Global,
    left: Literal,
    right: Literal,
    column: u32,
    rows: &mut Vec<Row>,
) -> Result<(), AllocError>
    requires left { LiteralBelow column left }
    requires right { LiteralBelow column right }
    ensures { IfOk result (λ _. AddsConnective Iff left right column rows.old.items rows.new.items) }
{
    rows.push(row_of(alloc, plus(left), minus(right), Sign::Plus, column, 1)?)?;
    rows.push(row_of(alloc, minus(left), plus(right), Sign::Plus, column, 1)?)?;
    rows.push(row_of(alloc, minus(left), minus(right), Sign::Minus, column, -1)?)?;
    rows.push(row_of(alloc, plus(left), plus(right), Sign::Minus, column, 1)?)?;
    Ok(())
}
