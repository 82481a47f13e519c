ghost use Rattle.std.specs.Prelude.{◌≡◌, ◌≤◌, ◌<◌, ◌+◌, ◌^◌, ◌++◌, length, IfOk, pos, unsigned_abs};
ghost use Rattle.hys_formula.specs.Formulas.{tree_of, connect, connectives};
ghost use Rattle.hys_logic.specs.Literals.{column_in};
ghost use Rattle.hys_logic.specs.Meanings.{NamesWithin};
ghost use Rattle.hys_logic.specs.Tables.{placed, setting_in, ones as ones_in, columns_of, Rising, truth_by, sign_by as sign_of, bound_by, IsAbsent, IsSettingsRow, are_few, CollectsNames, AddsSetting, AddsRest, AreShortNames};

use crate::row::{Sign, term};
use crate::small::small;
use hys_base::List;
use hys_formula::{Connective, Formula};
use hys_lin::{Row, Term};
use std::alloc::{AllocError, Global};

/// A column set to 0 or 1.
#[derive(Clone, Copy, Debug, PartialEq, Eq)]
pub struct Setting {
    pub column: u32,
    pub one: bool,
}

// Puts a setting in its place among rising columns, unless its column is there.
fn place(settings: &mut Vec<Setting>, own: Setting) -> Result<(), AllocError>
    ensures { IfOk result (λ _. settings.new.items ≡ placed own settings.old.items) }
{
    for place in 0..settings.len() {
        let column = settings[place].column;
        if own.column == column {
            return Ok(());
        }
        if own.column < column {
            settings.insert(place, own)?;
            return Ok(());
        }
    }
    settings.push(own)?;
    Ok(())
}

// Adds the columns of the formula's names, each set to 0, and stops where they are more than four.
fn add_names(
    formula: &Formula,
    columns: &[u32],
    settings: &mut Vec<Setting>,
) -> Result<(), AllocError>
    requires { NamesWithin columns.now (tree_of formula.now) }
    ensures { IfOk result (λ _. CollectsNames columns.now formula.now settings.old settings.new) }
{
    if settings.len() > 4 {
        return Ok(());
    }
    match formula {
        Formula::Const(_) => Ok(()),
        Formula::Name(name) => Ok(place(
            settings,
            Setting {
                column: columns[*name as usize],
                one: false,
            },
        )?),
        Formula::Not(inner) => Ok(add_names(inner, columns, settings)?),
        Formula::Join(_, left, right) => {
            add_names(left, columns, settings)?;
            add_names(right, columns, settings)?;
            Ok(())
        }
    }
}

// What the settings give a column.
fn setting_at(settings: &[Setting], column: u32) -> bool
    ensures { result ≡ setting_in settings.now column }
{
    for setting in settings {
        if setting.column == column {
            return setting.one;
        }
    }
    false
}

// The truth of the formula at the settings.
fn truth_at(formula: &Formula, columns: &[u32], settings: &[Setting]) -> bool
    requires { NamesWithin columns.now (tree_of formula.now) }
    ensures { result ≡ truth_by (column_in columns.now) (tree_of formula.now) settings.now }
{
    match formula {
        Formula::Const(truth) => *truth,
        Formula::Name(name) => setting_at(settings, columns[*name as usize]),
        Formula::Not(inner) => !truth_at(inner, columns, settings),
        Formula::Join(connective, left, right) => {
            let first = truth_at(left, columns, settings);
            let second = truth_at(right, columns, settings);
            connected(*connective, first, second)
        }
    }
}

fn connected(connective: Connective, left: bool, right: bool) -> bool
    ensures { result ≡ connect connective left right }
{
    match connective {
        Connective::And => left && right,
        Connective::Or => left || right,
        Connective::Iff => left == right,
        Connective::Then => !left || right,
        Connective::From => left || !right,
    }
}

// How many of at most four settings are 1.
fn ones(settings: &[Setting]) -> i8
    requires { length settings.now ≤ 4 }
    ensures value { result ≡ pos (ones_in settings.now) }
    ensures small { unsigned_abs result ≤ 4 }
{
    let mut ones = 0;
    for setting in settings {
        if setting.one {
            ones += 1;
        }
    }
    ones
}

// The bound of the settings' row.
fn bound(settings: &[Setting], less: bool) -> i8
    requires { length settings.now ≤ 4 }
    ensures value { result ≡ bound_by less (ones_in settings.now) }
    ensures small { unsigned_abs result ≤ 5 }
{
    if less {
        ones(settings) - 1
    } else {
        ones(settings)
    }
}

fn sign_by(one: bool) -> Sign
    ensures { result ≡ sign_of one }
{
    if one { Sign::Plus } else { Sign::Minus }
}

// The row of the settings with this bound.
fn settings_row(alloc: Global, settings: &[Setting], bound: i8) -> Result<Row, AllocError>
    requires { unsigned_abs bound ≤ 5 }
    ensures { IfOk result (λ r. IsSettingsRow settings.now bound r) }
{
    let mut terms = Vec::with_capacity(alloc, settings.len())?;
    for setting in settings {
        terms.push(term(setting.column, sign_by(setting.one)))?;
    }
    Ok(Row {
        terms: List::of(terms),
        bound: small(bound),
        eq: false,
    })
}

// Adds the row of one choice of settings, at which the formula has this truth.
fn add_setting(
    alloc: Global,
    target: Option<u32>,
    truth: bool,
    settings: &[Setting],
    rows: &mut Vec<Row>,
) -> Result<(), AllocError>
    requires few { length settings.now ≤ 4 }
    requires rising { Rising (columns_of settings.now) }
    requires absent { IsAbsent target (columns_of settings.now) }
    ensures { IfOk result (λ _. AddsSetting target truth settings.now rows.old rows.new) }
{
    match target {
        Some(column) => {
            let mut all = Vec::from_slice(alloc, settings)?;
            place(
                &mut all,
                Setting {
                    column,
                    one: !truth,
                },
            )?;
            rows.push(settings_row(alloc, &all, bound(settings, truth))?)?;
        }
        None => {
            if !truth {
                rows.push(settings_row(alloc, settings, bound(settings, true))?)?;
            }
        }
    }
    Ok(())
}

// Adds the rows of all settings that begin with those made and go on with the columns of `rest`.
pub fn add_table(
    alloc: Global,
    formula: &Formula,
    columns: &[u32],
    target: Option<u32>,
    rest: &[Setting],
    made: &mut Vec<Setting>,
    rows: &mut Vec<Row>,
) -> Result<(), AllocError>
    requires names { NamesWithin columns.now (tree_of formula.now) }
    requires few { length made.old.items + length rest.now ≤ 4 }
    requires rising { Rising (columns_of (made.old.items ++ rest.now)) }
    requires absent { IsAbsent target (columns_of (made.old.items ++ rest.now)) }
    ensures same { IfOk result (λ _. made.new.items ≡ made.old.items) }
    ensures added { IfOk result (λ _. AddsRest target columns.now formula.now made.old rest.now rows.old rows.new) }
{
    match rest.split_first() {
        None => {
            let truth = truth_at(formula, columns, made);
            add_setting(alloc, target, truth, made, rows)?;
        }
        Some((first, later)) => {
            let column = first.column;
            made.push(Setting { column, one: false })?;
            add_table(alloc, formula, columns, target, later, made, rows)?;
            made.pop();
            made.push(Setting { column, one: true })?;
            add_table(alloc, formula, columns, target, later, made, rows)?;
            made.pop();
        }
    }
    Ok(())
}

// The number of connectives.
pub fn connectives_of(formula: &Formula) -> u64
    requires { connectives (tree_of formula.now) < 2 ^ 32 }
    ensures { result ≡ connectives (tree_of formula.now) }
{
    match formula {
        Formula::Const(_) => 0,
        Formula::Name(_) => 0,
        Formula::Not(inner) => connectives_of(inner),
        Formula::Join(_, left, right) => connectives_of(left) + connectives_of(right) + 1,
    }
}

// Whether a table of so many names is small beside the connectives.
fn few(names: usize, connectives: u64) -> bool
    requires { connectives < 2 ^ 32 }
    ensures { result ≡ are_few names connectives }
{
    connectives > 0 && names <= 4 && 1u64 << names <= 4 * connectives
}

/// The names of a short formula by their columns, each set to 0; none of another formula.
pub fn short_names(
    alloc: Global,
    formula: &Formula,
    columns: &[u32],
) -> Result<Option<Vec<Setting>>, AllocError>
    requires names { NamesWithin columns.now (tree_of formula.now) }
    requires count { connectives (tree_of formula.now) < 2 ^ 32 }
    ensures { IfOk result (λ names. AreShortNames columns.now formula.now names) }
{
    let mut names = Vec::new(alloc);
    add_names(formula, columns, &mut names)?;
    if few(names.len(), connectives_of(formula)) {
        Ok(Some(names))
    } else {
        Ok(None)
    }
}
