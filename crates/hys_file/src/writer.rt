ghost use Rattle.std.specs.Prelude.{◌≡◌, ◌++◌, [], string_bytes, IfOk};
ghost use Rattle.std.specs.List.{AllByRecursion};
ghost use Rattle.std.proofs.Common.{get_or};
ghost use Rattle.serde_json.specs.Data.{string};
ghost use Rattle.serde_json.specs.View.{view};
ghost use Rattle.hys_file.specs.Fitting.{ColumnFits, TermFits, FormFits, OutputFits, RowFits};
ghost use Rattle.hys_file.specs.Texts.{ReadsAs};
ghost use Rattle.hys_file.specs.Matrix.{kind_word, role_word, column_data, term_data, next_data, output_data, row_data, matrix_text, row_text, rows_text};

use hys_base::Text;
use hys_json::{Writer, number_text, pair, push_list, push_value, write_list};
use hys_lin::{Affine, Row, Term};
use hys_sys::{Column, ColumnRole, Kind2, Output, System};
use serde_json::{Value, json};
use std::alloc::{AllocError, Global};

fn kind_word(kind: Kind2) -> &'static str
    ensures { result.now ≡ kind_word kind }
{
    match kind {
        Kind2::Real => "real",
        Kind2::Bool => "bool",
    }
}

fn role_word(role: ColumnRole) -> &'static str
    ensures { result.now ≡ role_word role }
{
    match role {
        ColumnRole::State => "state",
        ColumnRole::Input => "input",
        ColumnRole::D => "d",
        ColumnRole::Z => "z",
    }
}

struct Columns;

impl Writer for Columns {
    type Item = Column;

    ghost shown = { column_data };

    ghost fit = { ColumnFits };

    fn write(&self, alloc: Global, item: &Column) -> Result<Value, AllocError> {
        let low = number_text(alloc, item.bounds.low)?;
        let high = number_text(alloc, item.bounds.high)?;
        let kind = kind_word(item.kind);
        let role = role_word(item.role);
        json!(in alloc; {
            "box": [low.as_str(), high.as_str()],
            "kind": kind,
            "name": item.name.text(),
            "role": role
        })
    }
}

struct Terms;

impl Writer for Terms {
    type Item = Term;

    ghost shown = { term_data };

    ghost fit = { TermFits };

    fn write(&self, alloc: Global, item: &Term) -> Result<Value, AllocError> {
        pair(alloc, item.column, item.factor)
    }
}

struct Forms;

impl Writer for Forms {
    type Item = Affine;

    ghost shown = { next_data };

    ghost fit = { FormFits };

    fn write(&self, alloc: Global, item: &Affine) -> Result<Value, AllocError> {
        let constant = number_text(alloc, item.constant)?;
        let terms = write_list(alloc, &Terms, item.terms.items())?;
        json!(in alloc; {"constant": constant.as_str(), "terms": terms})
    }
}

struct Outputs;

impl Writer for Outputs {
    type Item = Output;

    ghost shown = { output_data };

    ghost fit = { OutputFits };

    fn write(&self, alloc: Global, item: &Output) -> Result<Value, AllocError> {
        let constant = number_text(alloc, item.form.constant)?;
        let kind = kind_word(item.kind);
        let terms = write_list(alloc, &Terms, item.form.terms.items())?;
        json!(in alloc; {
            "constant": constant.as_str(),
            "kind": kind,
            "name": item.name.text(),
            "terms": terms
        })
    }
}

// The value of a row, with the label of its item.
fn row_value(alloc: Global, label: &str, row: &Row) -> Result<Value, AllocError>
    ensures value { IfOk result (λ v. view v ≡ row_data label.now row.now) }
    ensures fits { IfOk result (λ _. RowFits row.now) }
{
    let bound = number_text(alloc, row.bound)?;
    let terms = write_list(alloc, &Terms, row.terms.items())?;
    json!(in alloc; {"bound": bound, "item": label, "terms": terms})
}

// The label at a place, the empty text where there is none.
fn label_at(labels: &[Text], at: usize) -> &str
    ensures { result.now ≡ get_or labels.now at [] }
{
    match labels.get(at) {
        Some(label) => label.text(),
        None => "",
    }
}

// Appends the text of a row, behind the comma where another row stands before it.
#[tactic(auto, using(crate::proofs::Floats::row, crate::proofs::Pieces::behind))]
fn push_row(
    alloc: Global,
    text: &mut String,
    at: usize,
    label: &str,
    row: &Row,
) -> Result<(), AllocError>
    ensures text { IfOk result (λ _. string_bytes text.new ≡ string_bytes text.old ++ row_text at label.now row.now) }
    ensures fits { IfOk result (λ _. RowFits row.now) }
{
    if at > 0 {
        text.push(',')?;
    }
    let value = row_value(alloc, label, row)?;
    push_value(alloc, text, &value)
}

// Appends the text of the rows with their labels, row by row, so that there is one row's value at a time.
#[tactic(auto, using(crate::proofs::Pieces::next_row, hys_json::proofs::Fitted::all_next, hys_json::proofs::Fitted::all_done))]
fn push_rows(
    alloc: Global,
    text: &mut String,
    labels: &[Text],
    rows: &[Row],
) -> Result<(), AllocError>
    ensures text { IfOk result (λ _. string_bytes text.new ≡ string_bytes text.old ++ rows_text labels.now rows.now) }
    ensures fit { IfOk result (λ _. AllByRecursion RowFits rows.now) }
{
    text.push('[')?;
    for (at, row) in rows.iter().enumerate() {
        push_row(alloc, text, at, label_at(labels, at), row)?;
    }
    text.push(']')?;
    Ok(())
}

fn text_value(alloc: Global, text: &str) -> Result<Value, AllocError>
    ensures { IfOk result (λ v. view v ≡ string text.now) }
{
    Ok(Value::String(String::from_str(alloc, text)?))
}

/// The matrix text of a system, version 2: one line of compact JSON with keys in byte order, numbers
/// as strings, each term as its column and its factor, and each row with its label under `item`.
#[tactic(auto, using(crate::proofs::Floats::columns, crate::proofs::Floats::nexts, crate::proofs::Floats::outputs))]
pub fn write_system(alloc: Global, system: &System) -> Result<Vec<u8>, AllocError>
    ensures text { IfOk result (λ bytes. bytes.items ≡ matrix_text system.now) }
    ensures reads { IfOk result (λ bytes. ReadsAs bytes.items system.now) }
{
    let mut text = String::new(alloc);
    text.push_str(r#"{"columns":"#)?;
    push_list(alloc, &mut text, &Columns, system.columns.items())?;
    text.push_str(r#","format":"hysdel-mld","next":"#)?;
    push_list(alloc, &mut text, &Forms, system.next.items())?;
    text.push_str(r#","outputs":"#)?;
    push_list(alloc, &mut text, &Outputs, system.outputs.items())?;
    text.push_str(r#","rows":"#)?;
    push_rows(alloc, &mut text, system.labels.items(), system.rows.items())?;
    text.push_str(r#","system":"#)?;
    let name = text_value(alloc, system.name.text())?;
    push_value(alloc, &mut text, &name)?;
    text.push_str(r#","version":2,"weight":"#)?;
    push_value(alloc, &mut text, &Value::from(system.weight))?;
    text.push_str("}\n")?;
    Ok(text.into_bytes())
}
