//! The whole matrix text.

ghost use Rattle.std.specs.Prelude.{◌≡◌, map, length, IfOk};
ghost use Rattle.serde_json.specs.View.{view};
ghost use Rattle.hys_json.specs.Checks.{Judged};
ghost use Rattle.hys_base.specs.Differ.{Differ};
ghost use Rattle.hys_sys.specs.System.{states};
ghost use Rattle.hys_file.specs.Reading.{next_checks, next_in, outputs_checks, outputs_in, rows_checks, row_of, label_of, version_checks, column_name, is_number_by, IsFront, IsBack, HasMatrixKeys, front_checks, forms_checks, back_checks, columns_of, AreForms, matrix_keys, AreRowsBy};
ghost use Rattle.hys_json.specs.Values.{whole_by, closed_checks};

use crate::column::{names_of, read_columns};
use crate::form::FormsBefore;
use crate::output::OutputsBefore;
use crate::row::{FirstRowsBefore, RowsBefore};
use hys_base::{List, Text};
use hys_json::{
    ValueFault, check, check_keys, check_word, member, read_list, read_text, read_whole, within,
};
use hys_lin::{Affine, Row};
use hys_sys::{Column, ColumnRole, Output, System};
use serde_json::Value;
use std::alloc::{AllocError, Global};

/// How many columns are states.
pub fn count_states(columns: &[Column]) -> u64
    ensures { result ≡ states columns.now }
{
    let mut count = 0u64;
    for column in columns {
        if matches!(column.role, ColumnRole::State) {
            count += 1;
        }
    }
    count
}

// The forms of next values, one for each state.
#[tactic(auto, using(hys_json::proofs::Judging::fails_first, hys_json::proofs::Judging::fails_second, hys_json::proofs::Judging::none_after_none, hys_json::proofs::Judging::fails_third, hys_json::proofs::Judging::fails_fourth, hys_json::proofs::Judging::fails_fifth, hys_json::proofs::Judging::none_of_five, hys_json::proofs::Judging::fails_under, hys_json::proofs::Judging::passes_under, hys_json::proofs::Judging::read_as, hys_json::proofs::Readings::closed_has))]
fn read_next(alloc: Global, columns: &[Column], value: &Value) -> Result<List<Affine>, ValueFault>
    ensures { Judged (next_checks columns.now (view value.now)) (λ fs. fs ≡ next_in (view value.now)) result }
{
    let mut before = FormsBefore {
        columns: columns.len() as u64,
    };
    let forms = read_list(alloc, &mut before, value)?;
    check(alloc, forms.len() as u64 == count_states(columns))?;
    Ok(List::of(forms))
}

fn read_outputs(
    alloc: Global,
    columns: &[Column],
    value: &Value,
) -> Result<List<Output>, ValueFault>
    requires { Differ (map column_name columns.now) }
    ensures { Judged (outputs_checks columns.now (view value.now)) (λ os. os ≡ outputs_in (view value.now)) result }
{
    let mut before = OutputsBefore {
        columns: columns.len() as u64,
        names: names_of(alloc, columns)?,
    };
    let outputs = read_list(alloc, &mut before, value)?;
    Ok(List::of(outputs))
}

// The rows with their labels.
fn read_rows(
    alloc: Global,
    is_first: bool,
    columns: u64,
    value: &Value,
) -> Result<Vec<(Row, Text)>, ValueFault>
    ensures { Judged (rows_checks is_first columns (view value.now)) (AreRowsBy is_first (view value.now)) result }
{
    if is_first {
        let mut before = FirstRowsBefore { columns };
        read_list(alloc, &mut before, value)
    } else {
        let mut before = RowsBefore { columns };
        read_list(alloc, &mut before, value)
    }
}

/// Rows and labels apart.
pub fn parted(
    alloc: Global,
    labelled: Vec<(Row, Text)>,
) -> Result<(List<Row>, List<Text>), AllocError>
    ensures { IfOk result (λ p. (p.0 ≡ map row_of labelled.items) × (p.1 ≡ map label_of labelled.items)) }
{
    let mut rows = Vec::with_capacity(alloc, labelled.len())?;
    let mut labels = Vec::with_capacity(alloc, labelled.len())?;
    for (row, label) in labelled {
        rows.push(row)?;
        labels.push(label)?;
    }
    Ok((List::of(rows), List::of(labels)))
}

fn check_matrix_keys(alloc: Global, value: &Value) -> Result<(), ValueFault>
    ensures { Judged (closed_checks matrix_keys (view value.now)) (λ _. Unit {0}) result }
{
    check_keys(
        alloc,
        value,
        &[
            "columns", "format", "next", "outputs", "rows", "system", "version", "weight",
        ],
    )
}

/// What stands before the rows.
#[derive(Drop)]
pub struct Front {
    pub columns: List<Column>,
    pub next: List<Affine>,
    pub outputs: List<Output>,
}

/// The rows, and what stands behind them.
#[derive(Drop)]
pub struct Back {
    pub rows: List<Row>,
    pub labels: List<Text>,
    pub name: Text,
    pub weight: u32,
}

/// The system of both parts.
pub fn whole(front: Front, back: Back) -> System
    ensures front { (result.columns ≡ front.columns) × (result.next ≡ front.next) × (result.outputs ≡ front.outputs) }
    ensures rows { (result.rows ≡ back.rows) × (result.labels ≡ back.labels) }
    ensures others { (result.name ≡ back.name) × (result.weight ≡ back.weight) }
{
    System {
        name: back.name,
        columns: front.columns,
        next: front.next,
        outputs: front.outputs,
        rows: back.rows,
        labels: back.labels,
        weight: back.weight,
    }
}

#[tactic(auto, using(hys_json::proofs::Judging::fails_first, hys_json::proofs::Judging::fails_second, hys_json::proofs::Judging::none_after_none, hys_json::proofs::Judging::fails_third, hys_json::proofs::Judging::fails_fourth, hys_json::proofs::Judging::fails_fifth, hys_json::proofs::Judging::none_of_five, hys_json::proofs::Judging::fails_under, hys_json::proofs::Judging::passes_under, hys_json::proofs::Judging::read_as, hys_json::proofs::Readings::closed_has), unfolding(crate::specs::Reading::forms_checks))]
fn read_forms(
    alloc: Global,
    columns: &[Column],
    value: &Value,
) -> Result<(List<Affine>, List<Output>), ValueFault>
    requires columns { columns.now ≡ columns_of (view value.now) }
    requires keys { HasMatrixKeys (view value.now) }
    requires names { Differ (map column_name columns.now) }
    ensures { Judged (forms_checks (view value.now)) (AreForms (view value.now)) result }
{
    let next = within(
        alloc,
        "next",
        read_next(alloc, columns, member(value, "next")),
    )?;
    let outputs = within(
        alloc,
        "outputs",
        read_outputs(alloc, columns, member(value, "outputs")),
    )?;
    Ok((next, outputs))
}

#[tactic(auto, using(hys_json::proofs::Judging::fails_first, hys_json::proofs::Judging::fails_second, hys_json::proofs::Judging::none_after_none, hys_json::proofs::Judging::fails_third, hys_json::proofs::Judging::fails_fourth, hys_json::proofs::Judging::fails_fifth, hys_json::proofs::Judging::none_of_five, hys_json::proofs::Judging::fails_under, hys_json::proofs::Judging::passes_under, hys_json::proofs::Judging::read_as, hys_json::proofs::Readings::closed_has), unfolding(crate::specs::Reading::front_checks))]
pub fn read_front(alloc: Global, value: &Value) -> Result<Front, ValueFault>
    ensures { Judged (front_checks (view value.now)) (IsFront (view value.now)) result }
{
    check_matrix_keys(alloc, value)?;
    let columns = within(
        alloc,
        "columns",
        read_columns(alloc, member(value, "columns")),
    )?;
    within(
        alloc,
        "format",
        check_word(alloc, member(value, "format"), "hysdel-mld"),
    )?;
    let (next, outputs) = read_forms(alloc, columns.items(), value)?;
    Ok(Front {
        columns,
        next,
        outputs,
    })
}

fn is_whole(value: &Value, number: u64) -> bool
    ensures { result ≡ is_number_by number (whole_by (view value.now)) }
{
    match value.as_u64() {
        Some(found) => found < 4294967296 && found == number,
        None => false,
    }
}

fn check_version(alloc: Global, value: &Value) -> Result<(), ValueFault>
    ensures { Judged (version_checks (view value.now)) (λ _. Unit {0}) result }
{
    check(alloc, is_whole(value, 1) || is_whole(value, 2))
}

#[tactic(auto, using(hys_json::proofs::Judging::fails_first, hys_json::proofs::Judging::fails_second, hys_json::proofs::Judging::none_after_none, hys_json::proofs::Judging::fails_third, hys_json::proofs::Judging::fails_fourth, hys_json::proofs::Judging::fails_fifth, hys_json::proofs::Judging::none_of_five, hys_json::proofs::Judging::fails_under, hys_json::proofs::Judging::passes_under, hys_json::proofs::Judging::read_as, hys_json::proofs::Readings::closed_has), unfolding(crate::specs::Reading::back_checks))]
pub fn read_back(alloc: Global, columns: u64, value: &Value) -> Result<Back, ValueFault>
    requires columns { columns ≡ length (columns_of (view value.now)) }
    requires keys { HasMatrixKeys (view value.now) }
    ensures { Judged (back_checks (view value.now)) (IsBack (view value.now)) result }
{
    let is_first = is_whole(member(value, "version"), 1);
    let rows = within(
        alloc,
        "rows",
        read_rows(alloc, is_first, columns, member(value, "rows")),
    )?;
    let name = within(alloc, "system", read_text(alloc, member(value, "system")))?;
    within(
        alloc,
        "version",
        check_version(alloc, member(value, "version")),
    )?;
    let weight = within(alloc, "weight", read_whole(alloc, member(value, "weight")))?;
    let (rows, labels) = parted(alloc, rows)?;
    Ok(Back {
        rows,
        labels,
        name,
        weight,
    })
}
