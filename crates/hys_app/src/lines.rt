ghost use Rattle.std.specs.Prelude.{◌≡◌, IfOk, string_bytes};
ghost use Rattle.hys_app.specs.Lines as lines;
ghost use Rattle.hys_compile.specs.declared.fault.Detail.TheVariants as shown;

use hys_ast::Place;
use hys_base::Text;
use hys_compile::{Detail, LimitKind, SourceFault, name_fault};
use hys_frac::Frac;
use hys_lin::{Lost, Op};
use hys_sys::System;
use std::alloc::{AllocError, Global};

// The forms of the words.
#[tactic(auto, unfolding(crate::specs::Lines::usage_line))]
pub fn describe_forms() -> &'static str
    ensures { result.now ≡ lines.usage_line }
{
    "usage: hysdel compile SRC MLD | sim SRC START INPUTS OUT | plan SRC REQ ANS | check MLD REQ ANS | demo K | migrate OLD NEW\n"
}

// The name can't be read.
#[tactic(auto, unfolding(crate::specs::Lines::read_line))]
pub fn describe_unread(alloc: Global, name: &str) -> Result<String, AllocError>
    ensures { IfOk result (λ s. string_bytes s ≡ lines.read_line name.now) }
{
    format!(in alloc; "read failed: {name}\n")
}

#[tactic(auto, unfolding(crate::specs::Lines::limit_word))]
fn name_limit(kind: LimitKind) -> &'static str
    ensures { result.now ≡ lines.limit_word kind }
{
    match kind {
        LimitKind::Bytes => "bytes",
        LimitKind::Tokens => "tokens",
        LimitKind::Nesting => "nesting",
        LimitKind::Nodes => "nodes",
        LimitKind::Expression => "expression",
        LimitKind::Names => "names",
    }
}

#[tactic(auto, unfolding(crate::specs::Lines::operation_sign))]
fn name_operation(op: Op) -> &'static str
    ensures { result.now ≡ lines.operation_sign op }
{
    match op {
        Op::Add => "+",
        Op::Sub => "-",
        Op::Mul => "*",
        Op::Div => "/",
    }
}

#[tactic(auto, unfolding(crate::specs::Lines::place_text))]
fn describe_place(alloc: Global, place: Place) -> Result<String, AllocError>
    ensures { IfOk result (λ s. string_bytes s ≡ lines.place_text place) }
{
    let line = place.line;
    let col = place.col;
    format!(in alloc; " at {line}:{col}")
}

fn describe_names(alloc: Global, names: &[Text]) -> Result<String, AllocError>
    ensures { IfOk result (λ s. string_bytes s ≡ lines.names_text names.now) }
{
    let mut text = String::new(alloc);
    for name in names {
        text.push_str(" ")?;
        text.push_str(name.text())?;
    }
    Ok(text)
}

// Two ends of bounds, behind their place.
#[tactic(auto, unfolding(crate::specs::Lines::detail_text))]
fn describe_ends(alloc: Global, place: Place, low: Frac, high: Frac) -> Result<String, AllocError>
    ensures { IfOk result (λ s. string_bytes s ≡ lines.detail_text (shown.Ends place low high)) }
{
    let at = describe_place(alloc, place)?;
    let low = low.text(alloc)?;
    let high = high.text(alloc)?;
    format!(in alloc; "{at}: {low} {high}")
}

/// Two operands whose result doesn't fit.
#[tactic(auto, unfolding(crate::specs::Lines::lost_text))]
pub fn describe_lost(alloc: Global, lost: Lost) -> Result<String, AllocError>
    ensures { IfOk result (λ s. string_bytes s ≡ lines.lost_text lost) }
{
    let left = lost.left.text(alloc)?;
    let sign = name_operation(lost.op);
    let right = lost.right.text(alloc)?;
    format!(in alloc; "{left} {sign} {right}")
}

// Two operands whose result doesn't fit, behind their place.
#[tactic(auto, unfolding(crate::specs::Lines::detail_text))]
fn describe_range(alloc: Global, place: Place, lost: Lost) -> Result<String, AllocError>
    ensures { IfOk result (λ s. string_bytes s ≡ lines.detail_text (shown.Range place lost)) }
{
    let at = describe_place(alloc, place)?;
    let operands = describe_lost(alloc, lost)?;
    format!(in alloc; "{at}: {operands}")
}

// A tolerance, behind its place.
#[tactic(auto, unfolding(crate::specs::Lines::detail_text))]
fn describe_tolerance(alloc: Global, place: Place, value: Frac) -> Result<String, AllocError>
    ensures { IfOk result (λ s. string_bytes s ≡ lines.detail_text (shown.Tolerance place value)) }
{
    let at = describe_place(alloc, place)?;
    let value = value.text(alloc)?;
    format!(in alloc; "{at}: {value}")
}

// A literal that doesn't fit.
#[tactic(auto, unfolding(crate::specs::Lines::detail_text))]
fn describe_literal(alloc: Global, place: Place) -> Result<String, AllocError>
    ensures { IfOk result (λ s. string_bytes s ≡ lines.detail_text (shown.Literal place)) }
{
    let at = describe_place(alloc, place)?;
    format!(in alloc; "{at}: literal")
}

// What a fault shows behind its words.
#[tactic(auto, unfolding(crate::specs::Lines::detail_text))]
fn describe_detail(alloc: Global, detail: &Detail) -> Result<String, AllocError>
    ensures { IfOk result (λ s. string_bytes s ≡ lines.detail_text detail.now) }
{
    match detail {
        Detail::At(place) => describe_place(alloc, *place),
        Detail::Named(name) => {
            let name = name.text();
            format!(in alloc; " {name}")
        }
        Detail::Names(names) => describe_names(alloc, names.items()),
        Detail::Ends(place, low, high) => describe_ends(alloc, *place, *low, *high),
        Detail::Literal(place) => describe_literal(alloc, *place),
        Detail::Range(place, lost) => describe_range(alloc, *place, *lost),
        Detail::Tolerance(place, value) => describe_tolerance(alloc, *place, *value),
        Detail::Limit(kind) => {
            let limit = name_limit(*kind);
            format!(in alloc; " {limit}")
        }
        Detail::Memory => Ok(String::new(alloc)),
    }
}

// The source is refused.
#[tactic(auto, unfolding(crate::specs::Lines::refused_line))]
pub fn describe_refusal(alloc: Global, fault: &SourceFault) -> Result<String, AllocError>
    ensures { IfOk result (λ s. string_bytes s ≡ lines.refused_line fault.now) }
{
    let number = fault.number;
    let words = name_fault(number);
    let detail = describe_detail(alloc, &fault.detail)?;
    format!(in alloc; "source refused: {number} {words}{detail}\n")
}

// A matrix text is put.
#[tactic(auto, unfolding(crate::specs::Lines::compiled_line))]
pub fn describe_system(alloc: Global, system: &System) -> Result<String, AllocError>
    ensures { IfOk result (λ s. string_bytes s ≡ lines.compiled_line system.now) }
{
    let columns = system.columns.items().len();
    let rows = system.rows.items().len();
    format!(in alloc; "compiled: {columns} columns, {rows} rows\n")
}

// A matrix text of the newest version is put.
#[tactic(auto, unfolding(crate::specs::Lines::migrated_line))]
pub fn describe_migrated(alloc: Global, system: &System) -> Result<String, AllocError>
    ensures { IfOk result (λ s. string_bytes s ≡ lines.migrated_line system.now) }
{
    let rows = system.rows.items().len();
    format!(in alloc; "migrated: {rows} rows\n")
}
