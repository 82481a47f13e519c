ghost use Rattle.std.specs.Prelude.{◌≡◌, ◌≤◌, ◌<◌, ◌∷◌, [], IfOk, IfSome, length};
ghost use Rattle.hys_number.specs.Ops.{whole as whole_number, ◌<ₙ◌};
ghost use Rattle.hys_lin.specs.Sums.{EachColumn};
ghost use Rattle.hys_formula.specs.Formulas.{tree_of, connectives};
ghost use Rattle.hys_prog.specs.Programs.{body_connectives};
ghost use Rattle.hys_logic.specs.Meanings.{HaveColumns};
ghost use Rattle.hys_logic.specs.Uses.{IsApart as IsApartFrom};
ghost use Rattle.hys_rows.specs.Items.{FitsNames};
ghost use Rattle.hys_rows.specs.Adding.{IsPlacedBody, IsPlaced, IsBoxed, IsApart};
ghost use Rattle.hys_rows.specs.Moved.{moved as moved_form};

use crate::added::Added;
use crate::body::add_body;
use crate::{RowFault, add_item, fresh_in};
use hys_ast::Place;
use hys_formula::{Connective, Formula};
use hys_frac::{Frac, List};
use hys_lin::{Affine, Interval, Row, Term};
use hys_prog::{Body, ProgItem};
use std::alloc::{AllocError, Global};

// The number of connectives, if it is small and the names have columns below 10, none of them 9.
fn small(formula: &Formula, columns: &[u32]) -> Option<u32>
    ensures count { IfSome result (λ k. (k ≡ connectives (tree_of formula.now)) × (k ≤ 5000)) }
    ensures names { IfSome result (λ _. HaveColumns columns.now 10 (tree_of formula.now)) }
    ensures apart { IfSome result (λ _. IsApartFrom 9 columns.now (tree_of formula.now)) }
{
    match formula {
        Formula::Const(_) => Some(0),
        Formula::Name(name) => {
            let place = *name as usize;
            if place < columns.len() && columns[place] < 10 && columns[place] != 9 {
                Some(0)
            } else {
                None
            }
        }
        Formula::Not(inner) => small(inner, columns),
        Formula::Join(_, left, right) => {
            match (small(left, columns), small(right, columns)) {
                (Some(a), Some(b)) if a + b < 5000 => Some(a + b + 1),
                _ => None,
            }
        }
    }
}

// x + 2*y and a constant, over the names 0 and 1, with the columns 4 and 1.
fn form(alloc: Global, constant: Frac) -> Result<Affine, AllocError>
    ensures placed { IfOk result (λ f. IsPlaced (4 ∷ 1 ∷ 0 ∷ 2 ∷ []) f) }
    ensures names { IfOk result (λ f. EachColumn (λ n. n < 4) f.terms) }
    ensures columns { IfOk result (λ f. EachColumn (λ c. c < 5) (moved_form (4 ∷ 1 ∷ 0 ∷ 2 ∷ []) f).terms) }
{
    let mut terms = Vec::new(alloc);
    terms.push(Term {
        column: 0,
        factor: Frac::whole(1),
    })?;
    terms.push(Term {
        column: 1,
        factor: Frac::whole(2),
    })?;
    Ok(Affine {
        terms: List::of(terms),
        constant,
    })
}

// The tolerance 2.
fn tolerance() -> Frac
    ensures { whole_number 0 <ₙ result }
{
    Frac::whole(2)
}

// The body of a kind that has forms alone, over x + 2*y - 6.
fn form_body(alloc: Global, kind: &str, boxes: &[Interval]) -> Result<Body, AllocError>
    requires { length boxes.now ≡ 4 }
    ensures placed { IfOk result (λ b. IsPlacedBody boxes.now (4 ∷ 1 ∷ 0 ∷ 2 ∷ []) 10 9 b) }
    ensures count { IfOk result (λ b. body_connectives b ≡ 0) }
{
    let form = form(alloc, Frac::whole(6).neg())?;
    match kind {
        "guard" => Ok(Body::Guard {
            number: form,
            eps: tolerance(),
        }),
        "linear" => Ok(Body::Linear(form)),
        "next" => Ok(Body::NextReal(form)),
        "output" => Ok(Body::OutReal(form)),
        "most" => Ok(Body::MustMost(form)),
        _ => Ok(Body::MustZero(form)),
    }
}

// The body of a kind that has a formula alone.
fn formula_body(kind: &str, formula: Formula, boxes: &[Interval]) -> Body
    requires names { HaveColumns (4 ∷ 1 ∷ 0 ∷ 2 ∷ []) 10 (tree_of formula) }
    requires apart { IsApartFrom 9 (4 ∷ 1 ∷ 0 ∷ 2 ∷ []) (tree_of formula) }
    ensures placed { IsPlacedBody boxes.now (4 ∷ 1 ∷ 0 ∷ 2 ∷ []) 10 9 result }
    ensures count { body_connectives result ≡ connectives (tree_of formula) }
{
    match kind {
        "logic" => Body::Logic(formula),
        "next" => Body::NextBool(formula),
        "output" => Body::OutBool(formula),
        _ => Body::MustHold(formula),
    }
}

// The body that chooses between x + 2*y - 6 and x + 2*y + 1.
fn choice_body(alloc: Global, when: Formula, boxes: &[Interval]) -> Result<Body, AllocError>
    requires names { HaveColumns (4 ∷ 1 ∷ 0 ∷ 2 ∷ []) 10 (tree_of when) }
    requires few { connectives (tree_of when) ≤ 5000 }
    requires long { length boxes.now ≡ 4 }
    ensures placed { IfOk result (λ b. IsPlacedBody boxes.now (4 ∷ 1 ∷ 0 ∷ 2 ∷ []) 10 6000 b) }
    ensures count { IfOk result (λ b. body_connectives b ≡ connectives (tree_of when)) }
{
    let hit = form(alloc, Frac::whole(6).neg())?;
    let other = form(alloc, Frac::whole(1))?;
    Ok(Body::Choice { when, hit, other })
}

// The terms as `factor@column ..`, all numbers being whole.
fn terms_shown(alloc: Global, terms: &[Term]) -> Result<String, AllocError> {
    let mut text = String::new(alloc);
    for term in terms {
        text.push_str(&format!(in alloc; "{}@{} ", term.factor.num(), term.column)?)?;
    }
    Ok(text)
}

// The rows as `factor@column .. <= bound;`, then the number of fresh columns and the form.
fn shown(alloc: Global, rows: &[Row], added: &Added) -> Result<String, AllocError> {
    let mut text = String::new(alloc);
    for row in rows {
        text.push_str(&terms_shown(alloc, row.terms.items())?)?;
        text.push_str(&format!(in alloc; "<= {}; ", row.bound.num())?)?;
    }
    text.push_str(&format!(in alloc; "{} fresh, ", added.fresh)?)?;
    text.push_str(&terms_shown(alloc, added.form.terms.items())?)?;
    text.push_str(&format!(in alloc; "+ {}", added.form.constant.num())?)?;
    Ok(text)
}

// What is added for a body whose fresh columns begin at 10.
fn body_shown(
    alloc: Global,
    body: &Body,
    own: u32,
    columns: &[u32],
    boxes: &[Interval],
) -> Result<String, AllocError>
    requires placed { IsPlacedBody boxes.now columns.now 10 own body.now }
    requires few { body_connectives body.now ≤ 5000 }
{
    let count = fresh_in(alloc, body, columns)?;
    let mut rows = Vec::new(alloc);
    match add_body(alloc, body, own, columns, boxes, 10, &mut rows) {
        Ok(added) if added.fresh == count => shown(alloc, &rows, &added),
        Ok(_) => format!(in alloc; "miscounted"),
        Err(RowFault::Lost(_)) => format!(in alloc; "lost"),
        Err(RowFault::Memory) => format!(in alloc; "memory"),
    }
}

fn interval(high: u32) -> Interval {
    Interval {
        low: Frac::whole(0),
        high: Frac::whole(high),
    }
}

// x from 0 to 10, and from 0 to 1 the others.
fn boxes_of(alloc: Global) -> Result<Vec<Interval>, AllocError>
    ensures { IfOk result (λ v. length v.items ≡ 4) }
{
    let mut boxes = Vec::new(alloc);
    boxes.push(interval(10))?;
    boxes.push(interval(1))?;
    boxes.push(interval(1))?;
    boxes.push(interval(1))?;
    Ok(boxes)
}

fn columns_of(alloc: Global) -> Result<Vec<u32>, AllocError>
    ensures { IfOk result (λ v. v.items ≡ 4 ∷ 1 ∷ 0 ∷ 2 ∷ []) }
{
    let mut columns = Vec::new(alloc);
    columns.push(4)?;
    columns.push(1)?;
    columns.push(0)?;
    columns.push(2)?;
    Ok(columns)
}

// What is added for a body of a kind that has forms alone.
fn form_shown(
    alloc: Global,
    kind: &str,
    columns: &[u32],
    boxes: &[Interval],
) -> Result<String, AllocError>
    requires columns { columns.now ≡ 4 ∷ 1 ∷ 0 ∷ 2 ∷ [] }
    requires boxes { length boxes.now ≡ 4 }
{
    let body = form_body(alloc, kind, boxes)?;
    body_shown(alloc, &body, 9, columns, boxes)
}

// What is added for a choice by a formula.
fn choice_shown(
    alloc: Global,
    when: Formula,
    columns: &[u32],
    boxes: &[Interval],
) -> Result<String, AllocError>
    requires columns { columns.now ≡ 4 ∷ 1 ∷ 0 ∷ 2 ∷ [] }
    requires boxes { length boxes.now ≡ 4 }
{
    match small(&when, columns) {
        Some(_) => {
            let body = choice_body(alloc, when, boxes)?;
            body_shown(alloc, &body, 6000, columns, boxes)
        }
        None => Ok(String::new(alloc)),
    }
}

// What is added for a body of a kind that has a formula alone.
fn formula_shown(
    alloc: Global,
    kind: &str,
    formula: Formula,
    columns: &[u32],
    boxes: &[Interval],
) -> Result<String, AllocError>
    requires columns { columns.now ≡ 4 ∷ 1 ∷ 0 ∷ 2 ∷ [] }
    requires boxes { length boxes.now ≡ 4 }
{
    match small(&formula, columns) {
        Some(_) => {
            let body = formula_body(kind, formula, boxes);
            body_shown(alloc, &body, 9, columns, boxes)
        }
        None => Ok(String::new(alloc)),
    }
}

// The demand that -1 be at most 0, which has no name.
fn demand(alloc: Global) -> Result<ProgItem, AllocError>
    ensures fits { IfOk result (λ t. FitsNames [] [] 0 t) }
    ensures count { IfOk result (λ t. body_connectives t.body ≡ 0) }
{
    Ok(ProgItem {
        name: None,
        place: Place {
            byte: 0,
            line: 1,
            col: 1,
        },
        body: Body::MustMost(Affine {
            terms: List::of(Vec::new(alloc)),
            constant: Frac::whole(1).neg(),
        }),
    })
}

// What is added for that demand where there are no names.
fn demand_shown(alloc: Global) -> Result<String, AllocError> {
    let item = demand(alloc)?;
    let mut rows = Vec::new(alloc);
    match add_item(alloc, &item, &[], &[], 0, &mut rows) {
        Ok(added) => shown(alloc, &rows, &added),
        Err(RowFault::Lost(_)) => format!(in alloc; "lost"),
        Err(RowFault::Memory) => format!(in alloc; "memory"),
    }
}

fn not(alloc: Global, inner: Formula) -> Result<Formula, AllocError> {
    Ok(Formula::Not(Box::new(alloc, inner)?))
}

fn join(
    alloc: Global,
    connective: Connective,
    left: Formula,
    right: Formula,
) -> Result<Formula, AllocError> {
    Ok(Formula::Join(connective, Box::new(alloc, left)?, Box::new(alloc, right)?))
}

// a and b have the columns 0 and 2, c and d the columns 4 and 1.
fn formula_of(alloc: Global, text: &str) -> Result<Formula, AllocError> {
    let a = Formula::Name(2);
    let b = Formula::Name(3);
    match text {
        "a" => Ok(a),
        "~a" => not(alloc, a),
        "true" => Ok(Formula::Const(true)),
        "a <-> ~b" => join(alloc, Connective::Iff, a, not(alloc, b)?),
        "a -> b" => join(alloc, Connective::Then, a, b),
        _ => {
            let left = join(alloc, Connective::Or, a, b)?;
            let right = join(alloc, Connective::Or, Formula::Name(0), Formula::Name(1))?;
            join(alloc, Connective::And, left, right)
        }
    }
}

fn kind_shown(alloc: Global, kind: &str, text: &str) -> Result<String, AllocError> {
    let columns = columns_of(alloc)?;
    let boxes = boxes_of(alloc)?;
    if text.is_empty() {
        return form_shown(alloc, kind, &columns, &boxes);
    }
    let formula = formula_of(alloc, text)?;
    if kind == "choice" {
        choice_shown(alloc, formula, &columns, &boxes)
    } else {
        formula_shown(alloc, kind, formula, &columns, &boxes)
    }
}

// The rows, the number of fresh columns and the form of each kind of item, worked out by hand.
#[test]
fn each_kind_of_item(rt: HostRuntime) {
    let alloc = rt.alloc();
    for (kind, text, want) in [
        (
            "guard",
            "",
            "2@1 1@4 6@9 <= 12; -2@1 -1@4 -8@9 <= -8; 0 fresh, + 0",
        ),
        (
            "linear",
            "",
            "-2@1 -1@4 1@9 <= -6; 2@1 1@4 -1@9 <= 6; 0 fresh, + 0",
        ),
        ("next", "", "0 fresh, 2@1 1@4 + -6"),
        ("output", "", "0 fresh, 2@1 1@4 + -6"),
        ("most", "", "2@1 1@4 <= 6; 0 fresh, + 0"),
        ("zero", "", "2@1 1@4 <= 6; -2@1 -1@4 <= -6; 0 fresh, + 0"),
        (
            "choice",
            "a",
            "-5@0 -2@1 -1@4 1@6000 <= 1; -19@0 2@1 1@4 -1@6000 <= -1; 19@0 -2@1 -1@4 1@6000 <= 13; 5@0 2@1 1@4 -1@6000 <= 11; 0 fresh, + 0",
        ),
        (
            "choice",
            "~a",
            "5@0 -2@1 -1@4 1@6000 <= 6; 19@0 2@1 1@4 -1@6000 <= 18; -19@0 -2@1 -1@4 1@6000 <= -6; -5@0 2@1 1@4 -1@6000 <= 6; 0 fresh, + 0",
        ),
        (
            "choice",
            "a <-> ~b",
            "-1@0 -1@2 1@10 <= 0; -1@0 1@2 -1@10 <= 0; 1@0 -1@2 -1@10 <= 0; 1@0 1@2 1@10 <= 2; -2@1 -1@4 -5@10 1@6000 <= 1; 2@1 1@4 -19@10 -1@6000 <= -1; -2@1 -1@4 19@10 1@6000 <= 13; 2@1 1@4 5@10 -1@6000 <= 11; 1 fresh, + 0",
        ),
        (
            "logic",
            "a <-> ~b",
            "-1@0 -1@2 1@9 <= 0; -1@0 1@2 -1@9 <= 0; 1@0 -1@2 -1@9 <= 0; 1@0 1@2 1@9 <= 2; 0 fresh, + 0",
        ),
        ("logic", "~a", "1@0 1@9 <= 1; -1@0 -1@9 <= -1; 0 fresh, + 0"),
        (
            "next",
            "a <-> ~b",
            "-1@0 -1@2 1@10 <= 0; -1@0 1@2 -1@10 <= 0; 1@0 -1@2 -1@10 <= 0; 1@0 1@2 1@10 <= 2; 1 fresh, 1@10 + 0",
        ),
        ("next", "~a", "0 fresh, -1@0 + 1"),
        ("output", "true", "0 fresh, + 1"),
        (
            "output",
            "(a | b) & (c | d)",
            "1@0 -1@10 <= 0; 1@2 -1@10 <= 0; -1@0 -1@2 1@10 <= 0; 1@4 -1@11 <= 0; 1@1 -1@11 <= 0; -1@1 -1@4 1@11 <= 0; -1@10 1@12 <= 0; -1@11 1@12 <= 0; 1@10 1@11 -1@12 <= 1; 3 fresh, 1@12 + 0",
        ),
        ("must", "a -> b", "1@0 -1@2 <= 0; 0 fresh, + 0"),
        ("must", "~a", "1@0 <= 0; 0 fresh, + 0"),
    ] {
        let got = kind_shown(alloc, kind, text).expect(&rt, "memory");
        assert_eq!(rt; got.as_str(), want, "of {kind} {text}");
    }
    let alone = demand_shown(alloc).expect(&rt, "memory");
    assert_eq!(rt; alone.as_str(), "<= 1; 0 fresh, + 0");
}
