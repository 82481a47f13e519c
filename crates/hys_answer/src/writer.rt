//! Answers written as texts.

ghost use Rattle.std.specs.Prelude.{◌≡◌, ◌++◌, IfOk, string_bytes};
ghost use Rattle.serde_json.specs.View.{view};
ghost use Rattle.hys_json.specs.Shown.{fraction_data};
ghost use Rattle.hys_answer.specs.Shown.{pair_data, place_data, best_data, cell_data, at_data, why_data};
ghost use Rattle.hys_answer.specs.Shown.{claim_data, answer_data, answer_text};
ghost use Rattle.hys_answer.specs.Fitting.{NumberFits, PairFits, CellFits, PlaceFits, AnyBestFits, AtFits, WhyFits, ClaimFits, AnswerFits};
ghost use Rattle.hys_answer.specs.Texts.{StandsFor, ReadsAs};

use hys_frac::Frac;
use hys_json::{Writer, number_text, pair, push_list, push_value, write_list};
use hys_relax::TablePlace;
use hys_tree::{Answer, Best, Claim, TreePlace, Why};
use serde_json::{Value, json};
use std::alloc::{AllocError, Global};

struct Fractions;

impl Writer for Fractions {
    type Item = Frac;

    ghost shown = { fraction_data };

    ghost fit = { NumberFits };

    fn write(&self, alloc: Global, item: &Frac) -> Result<Value, AllocError> {
        Ok(Value::String(number_text(alloc, *item)?))
    }
}

/// A row and its multiplier.
struct Pairs;

impl Writer for Pairs {
    type Item = (u32, Frac);

    ghost shown = { pair_data };

    ghost fit = { PairFits };

    fn write(&self, alloc: Global, item: &(u32, Frac)) -> Result<Value, AllocError> {
        pair(alloc, item.0, item.1)
    }
}

/// The row and the column of a pivot.
struct Cells;

impl Writer for Cells {
    type Item = (u32, u32);

    ghost shown = { cell_data };

    ghost fit = { CellFits };

    fn write(&self, alloc: Global, item: &(u32, u32)) -> Result<Value, AllocError> {
        json!(in alloc; [item.0, item.1])
    }
}

struct Places;

impl Writer for Places {
    type Item = TreePlace;

    ghost shown = { place_data };

    ghost fit = { PlaceFits };

    fn write(&self, alloc: Global, item: &TreePlace) -> Result<Value, AllocError> {
        match item {
            TreePlace::Inner(column) => json!(in alloc; {"column": *column}),
            TreePlace::Cost(multipliers, depth) => {
                let pairs = write_list(alloc, &Pairs, multipliers.pairs.items())?;
                json!(in alloc; {"cost": pairs, "depth": *depth})
            }
            TreePlace::Never(multipliers, depth) => {
                let pairs = write_list(alloc, &Pairs, multipliers.pairs.items())?;
                json!(in alloc; {"depth": *depth, "never": pairs})
            }
        }
    }
}

// The value of a best, null where there is none.
fn best_value(alloc: Global, best: &Option<Best>) -> Result<Value, AllocError>
    ensures value { IfOk result (λ v. view v ≡ best_data best.now) }
    ensures fits { IfOk result (λ _. AnyBestFits best.now) }
{
    match best {
        None => Ok(Value::Null),
        Some(best) => {
            let cost = number_text(alloc, best.cost)?;
            let point = write_list(alloc, &Fractions, best.point.values.items())?;
            json!(in alloc; {"cost": cost.as_str(), "point": point})
        }
    }
}

fn at_value(alloc: Global, at: TablePlace) -> Result<Value, AllocError>
    ensures value { IfOk result (λ v. view v ≡ at_data at) }
    ensures fits { IfOk result (λ _. AtFits at) }
{
    match at {
        TablePlace::Cell { row, col } => json!(in alloc; {"cell": [row, col]}),
        TablePlace::Value { row } => json!(in alloc; {"value": row}),
        TablePlace::Sum => json!(in alloc; "sum"),
    }
}

fn why_value(alloc: Global, why: &Why) -> Result<Value, AllocError>
    ensures value { IfOk result (λ v. view v ≡ why_data why.now) }
    ensures fits { IfOk result (λ _. WhyFits why.now) }
{
    match why {
        Why::Spent(nodes) => json!(in alloc; {"kind": "spent", "nodes": *nodes}),
        Why::Range { node, at } => {
            let place = at_value(alloc, at.at)?;
            let path = write_list(alloc, &Cells, at.path.items())?;
            json!(in alloc; {"at": place, "kind": "range", "node": *node, "path": path})
        }
    }
}

fn claim_value(alloc: Global, claim: &Claim) -> Result<Value, AllocError>
    ensures value { IfOk result (λ v. view v ≡ claim_data claim.now) }
    ensures fits { IfOk result (λ _. ClaimFits claim.now) }
{
    match claim {
        Claim::Least(best) => {
            let cost = number_text(alloc, best.cost)?;
            let point = write_list(alloc, &Fractions, best.point.values.items())?;
            json!(in alloc; {"cost": cost.as_str(), "kind": "least", "point": point})
        }
        Claim::NoneExists => json!(in alloc; {"kind": "none"}),
        Claim::AtLeast { bound, best, why } => {
            let best = best_value(alloc, best)?;
            let bound = number_text(alloc, *bound)?;
            let why = why_value(alloc, why)?;
            json!(in alloc; {
                "best": best,
                "bound": bound.as_str(),
                "kind": "at_least",
                "why": why
            })
        }
    }
}

// The value of an answer, whose numbers fit.
fn answer_value(alloc: Global, answer: &Answer) -> Result<Value, AllocError>
    ensures value { IfOk result (λ v. view v ≡ answer_data answer.now.claim answer.now.tree.places) }
    ensures fits { IfOk result (λ _. AnswerFits answer.now.claim answer.now.tree.places) }
{
    let claim = claim_value(alloc, &answer.claim)?;
    let tree = write_list(alloc, &Places, answer.tree.places.items())?;
    json!(in alloc; {
        "claim": claim,
        "format": "hysdel-answer",
        "tree": tree,
        "version": 1u32
    })
}

/// The JSON value of an answer: its claim and the places of its tree. It reads as the same claim and tree where the
/// rows of multipliers rise and no multiplier is 0.
pub fn write_one(alloc: Global, answer: &Answer) -> Result<Value, AllocError>
    ensures value { IfOk result (λ v. view v ≡ answer_data answer.now.claim answer.now.tree.places) }
    ensures reads { IfOk result (λ v. StandsFor (view v) answer.now) }
{
    answer_value(alloc, answer)
}

// Puts a part behind the text.
fn put(text: &mut String, part: &str) -> Result<(), AllocError>
    ensures { IfOk result (λ _. string_bytes text.new ≡ string_bytes text.old ++ part.now) }
{
    text.push_str(part)
}

/// The text of an answer: one line of compact JSON with keys in byte order, numbers as strings, and
/// each multiplier with its row. Within the limits it reads as the same claim and tree where the rows of multipliers
/// rise and no multiplier is 0.
pub fn write_answer(alloc: Global, answer: &Answer) -> Result<Vec<u8>, AllocError>
    ensures text { IfOk result (λ bytes. bytes.items ≡ answer_text answer.now.claim answer.now.tree.places) }
    ensures reads { IfOk result (λ bytes. ReadsAs bytes.items answer.now) }
{
    let mut text = String::new(alloc);
    put(&mut text, r#"{"claim":"#)?;
    push_value(alloc, &mut text, &claim_value(alloc, &answer.claim)?)?;
    put(&mut text, r#","format":"hysdel-answer","tree":"#)?;
    push_list(alloc, &mut text, &Places, answer.tree.places.items())?;
    put(&mut text, ",\"version\":1}\n")?;
    Ok(text.into_bytes())
}
