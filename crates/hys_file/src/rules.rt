//! The rules that every system keeps, tried on one of which nothing is known.

ghost use Rattle.std.specs.Prelude.{◌≡◌, ◌++◌, ◌∷◌, [], ◌≤◌, false, length, map, option_map, IfOk, IsTrue};
ghost use Rattle.std.specs.List.{AllByRecursion};
ghost use Rattle.hys_base.specs.Differ.{Differ};
ghost use Rattle.hys_lin.specs.Over.{AreTermsOver};
ghost use Rattle.hys_sys.specs.System.{IsSystem, IsBox, InOrder, names, states};
ghost use Rattle.hys_file.specs.Reading.{column_name, output_name, limit_of, most_weight, IsOutputOver, IsRowOver};

use crate::column::{is_at_most, is_kinds_box, rank};
use crate::form::{TermsBefore, is_zero};
use crate::names::Names;
use crate::system::count_states;
use hys_lin::{Affine, Row, Term};
use hys_sys::{Column, Output, System};
use std::alloc::{AllocError, Global};

// Whether the roles stand in their order.
#[tactic(auto, using(crate::proofs::Kept::in_order, crate::proofs::Kept::ranks_next))]
fn are_in_order(columns: &[Column]) -> bool
    ensures { IsTrue result → InOrder columns.now }
{
    let mut least = 0u64;
    for column in columns {
        let rank = rank(column.role);
        if rank < least {
            return false;
        }
        least = rank;
    }
    true
}

#[tactic(auto, using(crate::proofs::Kept::is_box))]
fn has_box(column: &Column) -> bool
    ensures { IsTrue result → IsBox column.now.kind column.now.bounds }
{
    is_at_most(column.bounds.low, column.bounds.high) && is_kinds_box(column.kind, column.bounds)
}

// Whether each column has a box of its kind.
#[tactic(auto, using(hys_json::proofs::Fitted::all_next, hys_json::proofs::Fitted::all_done))]
fn have_boxes(columns: &[Column]) -> bool
    ensures { IsTrue result → AllByRecursion (λ c. IsBox c.kind c.bounds) columns.now }
{
    for column in columns {
        if !has_box(column) {
            return false;
        }
    }
    true
}

// Adds the name, if it isn't there yet; whether it was new.
#[tactic(auto, using(crate::proofs::Distinct::differ_more))]
fn meet(alloc: Global, met: &mut Names, name: &str) -> Result<bool, AllocError>
    ensures added { IfOk result (λ r. IsTrue r → met.new ≡ met.old ++ name.now ∷ []) }
    ensures differ { IfOk result (λ r. IsTrue r → Differ met.old → Differ met.new) }
{
    if met.has(name) {
        return Ok(false);
    }
    met.add(alloc, name)?;
    Ok(true)
}

fn meet_columns(alloc: Global, met: &mut Names, columns: &[Column]) -> Result<bool, AllocError>
    ensures added { IfOk result (λ r. IsTrue r → met.new ≡ met.old ++ map column_name columns.now) }
    ensures differ { IfOk result (λ r. IsTrue r → Differ met.old → Differ met.new) }
{
    for column in columns {
        if !meet(alloc, met, column.name.text())? {
            return Ok(false);
        }
    }
    Ok(true)
}

fn meet_outputs(alloc: Global, met: &mut Names, outputs: &[Output]) -> Result<bool, AllocError>
    ensures added { IfOk result (λ r. IsTrue r → met.new ≡ met.old ++ map output_name outputs.now) }
    ensures differ { IfOk result (λ r. IsTrue r → Differ met.old → Differ met.new) }
{
    for output in outputs {
        if !meet(alloc, met, output.name.text())? {
            return Ok(false);
        }
    }
    Ok(true)
}

// Whether the names of columns and outputs differ.
#[tactic(auto, using(crate::proofs::Kept::names_apart))]
fn names_differ(alloc: Global, system: &System) -> Result<bool, AllocError>
    ensures { IfOk result (λ r. IsTrue r → Differ (names system.now)) }
{
    let mut met = Names::new(alloc);
    if !meet_columns(alloc, &mut met, system.columns.items())? {
        return Ok(false);
    }
    if !meet_outputs(alloc, &mut met, system.outputs.items())? {
        return Ok(false);
    }
    Ok(true)
}

// Whether they are terms over so many columns.
#[tactic(auto, using(crate::proofs::Kept::terms_over, crate::proofs::Kept::terms_next))]
fn are_terms(columns: u64, terms: &[Term]) -> bool
    ensures { IsTrue result → AreTermsOver columns terms.now }
{
    let mut before = TermsBefore { columns, least: 0 };
    for term in terms {
        if !before.allows(term.column as u64) || is_zero(term.factor) {
            return false;
        }
        before.least = term.column as u64 + 1;
    }
    true
}

#[tactic(auto, using(hys_json::proofs::Fitted::all_next, hys_json::proofs::Fitted::all_done))]
fn are_forms(columns: u64, forms: &[Affine]) -> bool
    ensures { IsTrue result → AllByRecursion (λ f. AreTermsOver columns f.terms) forms.now }
{
    for form in forms {
        if !are_terms(columns, form.terms.items()) {
            return false;
        }
    }
    true
}

#[tactic(auto, using(hys_json::proofs::Fitted::all_next, hys_json::proofs::Fitted::all_done))]
fn are_outputs(columns: u64, outputs: &[Output]) -> bool
    ensures { IsTrue result → AllByRecursion (λ o. AreTermsOver columns o.form.terms) outputs.now }
{
    for output in outputs {
        if !are_terms(columns, output.form.terms.items()) {
            return false;
        }
    }
    true
}

// Whether they are rows over so many columns, with no equation.
#[tactic(auto, using(hys_json::proofs::Fitted::all_next, hys_json::proofs::Fitted::all_done))]
fn are_rows(columns: u64, rows: &[Row]) -> bool
    ensures { IsTrue result → AllByRecursion (λ r. (r.eq ≡ false) × AreTermsOver columns r.terms) rows.now }
{
    for row in rows {
        if row.eq || !are_terms(columns, row.terms.items()) {
            return false;
        }
    }
    true
}

/// The limit that the system passes.
pub fn limit_of(system: &System) -> Option<&'static str>
    ensures { limit_of system.now ≡ option_map (λ what. what.now) result }
{
    let weight = system.weight as u64;
    if weight > 5000 {
        return Some("weight");
    }
    if system.columns.items().len() as u64 > weight {
        return Some("columns");
    }
    if system.rows.items().len() as u64 > 5 * weight {
        return Some("rows");
    }
    None
}

// Whether the columns keep the rules on columns, and the outputs have other names.
fn columns_keep(alloc: Global, system: &System) -> Result<bool, AllocError>
    ensures order { IfOk result (λ r. IsTrue r → InOrder system.now.columns) }
    ensures boxes { IfOk result (λ r. IsTrue r → AllByRecursion (λ c. IsBox c.kind c.bounds) system.now.columns) }
    ensures differ { IfOk result (λ r. IsTrue r → Differ (names system.now)) }
{
    let columns = system.columns.items();
    if !are_in_order(columns) {
        return Ok(false);
    }
    if !have_boxes(columns) {
        return Ok(false);
    }
    names_differ(alloc, system)
}

// Whether next values, outputs and rows are as many as they should be, and over the columns.
fn forms_keep(system: &System) -> bool
    ensures each { IsTrue result → length system.now.next ≡ states system.now.columns }
    ensures next { IsTrue result → AllByRecursion (λ f. AreTermsOver (length system.now.columns) f.terms) system.now.next }
    ensures outputs { IsTrue result → AllByRecursion (IsOutputOver (length system.now.columns)) system.now.outputs }
    ensures rows { IsTrue result → AllByRecursion (IsRowOver (length system.now.columns)) system.now.rows }
    ensures labelled { IsTrue result → length system.now.labels ≡ length system.now.rows }
{
    let count = system.columns.items().len() as u64;
    if system.next.items().len() as u64 != count_states(system.columns.items()) {
        return false;
    }
    if system.labels.items().len() != system.rows.items().len() {
        return false;
    }
    if !are_forms(count, system.next.items()) {
        return false;
    }
    if !are_outputs(count, system.outputs.items()) {
        return false;
    }
    are_rows(count, system.rows.items())
}

/// Whether the system keeps all rules and is within the limits.
#[tactic(auto, using(crate::proofs::Kept::keeps))]
pub fn keeps_rules(alloc: Global, system: &System) -> Result<bool, AllocError>
    ensures { IfOk result (λ r. IsTrue r → IsSystem system.now × (system.now.weight ≤ most_weight)) }
{
    if !columns_keep(alloc, system)? {
        return Ok(false);
    }
    if !forms_keep(system) {
        return Ok(false);
    }
    Ok(limit_of(system).is_none())
}
