//! Columns.

ghost use Rattle.std.specs.Prelude.{◌≡◌, map, IfOk};
ghost use Rattle.serde_json.specs.View.{view};
ghost use Rattle.hys_json.specs.Checks.{Judged};
ghost use Rattle.hys_base.specs.Differ.{Differ};
ghost use Rattle.hys_sys.specs.System.{rank};
ghost use Rattle.hys_frac.specs.Compare.{number_cmp};
ghost use Rattle.hys_number.specs.Ops.{whole};
ghost use Rattle.hys_file.specs.Reading.{box_checks, box_in, isnt_greater, is_equal, is_kinds_box, column_name, column_parts, column_rules, column_checks, column_in, after_column, columns_checks, columns_in};

use crate::form::read_pair;
use crate::names::Names;
use crate::words::{read_kind, read_role};
use hys_base::List;
use hys_frac::Frac;
use hys_json::{
    Reader, ValueFault, check, check_keys, member, read_fraction, read_list, read_text, within,
};
use hys_lin::Interval;
use hys_sys::{Column, ColumnRole, Kind2};
use serde_json::Value;
use std::alloc::{AllocError, Global};
use std::cmp::Ordering;

/// Whether the low number is at most the high one.
pub fn is_at_most(low: Frac, high: Frac) -> bool
    ensures { result ≡ isnt_greater (number_cmp low high) }
{
    match Ord::cmp(&low, &high) {
        Ordering::Less | Ordering::Equal => true,
        Ordering::Greater => false,
    }
}

/// The box of a column.
#[tactic(auto, using(hys_json::proofs::Judging::fails_first, hys_json::proofs::Judging::fails_second, hys_json::proofs::Judging::none_after_none, hys_json::proofs::Judging::fails_third, hys_json::proofs::Judging::fails_fourth, hys_json::proofs::Judging::fails_fifth, hys_json::proofs::Judging::none_of_five, hys_json::proofs::Judging::fails_under, hys_json::proofs::Judging::passes_under, hys_json::proofs::Judging::read_as, hys_json::proofs::Readings::closed_has))]
fn read_box(alloc: Global, value: &Value) -> Result<Interval, ValueFault>
    ensures { Judged (box_checks (view value.now)) (λ i. i ≡ box_in (view value.now)) result }
{
    let (first, second) = read_pair(alloc, value)?;
    let low = within(alloc, "0", read_fraction(alloc, first))?;
    let high = within(alloc, "1", read_fraction(alloc, second))?;
    check(alloc, is_at_most(low, high))?;
    Ok(Interval { low, high })
}

fn is_number(number: Frac, end: u32) -> bool
    ensures { result ≡ is_equal (number_cmp number (whole end)) }
{
    matches!(Ord::cmp(&number, &Frac::whole(end)), Ordering::Equal)
}

/// Whether the box is one of the kind: that of a Boolean column is 0 to 1.
pub fn is_kinds_box(kind: Kind2, bounds: Interval) -> bool
    ensures { result ≡ is_kinds_box kind bounds }
{
    match kind {
        Kind2::Real => true,
        Kind2::Bool => is_number(bounds.low, 0) && is_number(bounds.high, 1),
    }
}

/// The place of a role in the order of the columns.
pub fn rank(role: ColumnRole) -> u64
    ensures { result ≡ rank role }
{
    match role {
        ColumnRole::State => 0,
        ColumnRole::Input => 1,
        ColumnRole::D => 2,
        ColumnRole::Z => 3,
    }
}

/// Before a column: the names of the columns before, and the least place that its role may have.
#[derive(Drop)]
pub struct ColumnsBefore {
    pub names: Names,
    pub rank: u64,
}

// A column, by itself.
#[tactic(auto, using(hys_json::proofs::Judging::fails_first, hys_json::proofs::Judging::fails_second, hys_json::proofs::Judging::none_after_none, hys_json::proofs::Judging::fails_third, hys_json::proofs::Judging::fails_fourth, hys_json::proofs::Judging::fails_fifth, hys_json::proofs::Judging::none_of_five, hys_json::proofs::Judging::fails_under, hys_json::proofs::Judging::passes_under, hys_json::proofs::Judging::read_as, hys_json::proofs::Readings::closed_has), unfolding(crate::specs::Reading::column_parts))]
fn read_parts(alloc: Global, value: &Value) -> Result<Column, ValueFault>
    ensures { Judged (column_parts (view value.now)) (λ c. c ≡ column_in (view value.now)) result }
{
    check_keys(alloc, value, &["box", "kind", "name", "role"])?;
    let bounds = within(alloc, "box", read_box(alloc, member(value, "box")))?;
    let kind = within(alloc, "kind", read_kind(alloc, member(value, "kind")))?;
    let name = within(alloc, "name", read_text(alloc, member(value, "name")))?;
    let role = within(alloc, "role", read_role(alloc, member(value, "role")))?;
    Ok(Column {
        name,
        role,
        kind,
        bounds,
    })
}

// Whether the column may stand behind those before.
#[tactic(auto, using(hys_json::proofs::Judging::fails_first, hys_json::proofs::Judging::fails_second, hys_json::proofs::Judging::none_after_none, hys_json::proofs::Judging::fails_third, hys_json::proofs::Judging::fails_fourth, hys_json::proofs::Judging::fails_fifth, hys_json::proofs::Judging::none_of_five, hys_json::proofs::Judging::fails_under, hys_json::proofs::Judging::passes_under, hys_json::proofs::Judging::read_as, hys_json::proofs::Readings::closed_has), unfolding(crate::specs::Reading::column_rules))]
fn check_rules(alloc: Global, before: &ColumnsBefore, column: &Column) -> Result<(), ValueFault>
    ensures { Judged (column_rules before.now column.now) (λ _. Unit {0}) result }
{
    within(
        alloc,
        "box",
        check(alloc, is_kinds_box(column.kind, column.bounds)),
    )?;
    within(
        alloc,
        "name",
        check(alloc, !before.names.has(column.name.text())),
    )?;
    within(
        alloc,
        "role",
        check(alloc, before.rank <= rank(column.role)),
    )
}

impl Reader for ColumnsBefore {
    type Item = Column;

    ghost asked = { column_checks };

    ghost meant = { column_in };

    ghost after = { after_column };

    #[tactic(auto, using(hys_json::proofs::Judging::fails_first, hys_json::proofs::Judging::fails_second, hys_json::proofs::Judging::none_after_none, hys_json::proofs::Judging::fails_third, hys_json::proofs::Judging::fails_fourth, hys_json::proofs::Judging::fails_fifth, hys_json::proofs::Judging::none_of_five, hys_json::proofs::Judging::fails_under, hys_json::proofs::Judging::passes_under, hys_json::proofs::Judging::read_as, hys_json::proofs::Readings::closed_has, crate::proofs::Lawful::new_column))]
    fn read(&mut self, alloc: Global, value: &Value) -> Result<Column, ValueFault> {
        let column = read_parts(alloc, value)?;
        check_rules(alloc, self, &column)?;
        self.names.add(alloc, column.name.text())?;
        self.rank = rank(column.role);
        Ok(column)
    }
}

/// The columns.
pub fn read_columns(alloc: Global, value: &Value) -> Result<List<Column>, ValueFault>
    ensures { Judged (columns_checks (view value.now)) (λ cs. cs ≡ columns_in (view value.now)) result }
{
    let mut before = ColumnsBefore {
        names: Names::new(alloc),
        rank: 0,
    };
    let columns = read_list(alloc, &mut before, value)?;
    Ok(List::of(columns))
}

/// The names of the columns, which differ.
#[tactic(auto, using(crate::proofs::Distinct::fresh_differ, crate::proofs::Distinct::next_is_new, crate::proofs::Distinct::next_fresh))]
pub fn names_of(alloc: Global, columns: &[Column]) -> Result<Names, AllocError>
    requires { Differ (map column_name columns.now) }
    ensures { IfOk result (λ names. names ≡ map column_name columns.now) }
{
    let mut names = Names::new(alloc);
    for column in columns {
        names.add(alloc, column.name.text())?;
    }
    Ok(names)
}
