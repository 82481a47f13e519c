//! The lines of `check`: the verdict on an answer.

ghost use Rattle.std.specs.Prelude.{◌≡◌, IfOk, string_bytes};
ghost use Rattle.hys_app.specs.Lines as lines;

use crate::lines::describe_lost;
use hys_check::{At, CheckWhy, Verdict};
use hys_frac::Frac;
use hys_lin::Lost;
use std::alloc::{AllocError, Global};

#[tactic(auto, unfolding(crate::specs::Lines::below_words))]
fn describe_below(alloc: Global, bound: Frac, claim: Frac) -> Result<String, AllocError>
    ensures { IfOk result (λ s. string_bytes s ≡ lines.below_words bound claim) }
{
    let bound = bound.text(alloc)?;
    let claim = claim.text(alloc)?;
    format!(in alloc; "below {bound} {claim}")
}

#[tactic(auto, unfolding(crate::specs::Lines::range_words))]
fn describe_range(alloc: Global, lost: Lost) -> Result<String, AllocError>
    ensures { IfOk result (λ s. string_bytes s ≡ lines.range_words lost) }
{
    let operands = describe_lost(alloc, lost)?;
    format!(in alloc; "range {operands}")
}

// Which test fails.
#[tactic(auto, unfolding(crate::specs::Lines::why_words))]
fn describe_why(alloc: Global, why: CheckWhy) -> Result<String, AllocError>
    ensures { IfOk result (λ s. string_bytes s ≡ lines.why_words why) }
{
    match why {
        CheckWhy::Shape => String::from_str(alloc, "shape"),
        CheckWhy::Sign => String::from_str(alloc, "sign"),
        CheckWhy::Below(bound, claim) => describe_below(alloc, bound, claim),
        CheckWhy::Point => String::from_str(alloc, "point"),
        CheckWhy::Range(lost) => describe_range(alloc, lost),
    }
}

fn describe_node(alloc: Global, node: u32) -> Result<String, AllocError>
    ensures { IfOk result (λ s. string_bytes s ≡ lines.node_words node) }
{
    format!(in alloc; "node {node}")
}

// Where it fails.
#[tactic(auto, unfolding(crate::specs::Lines::at_words))]
fn describe_at(alloc: Global, at: At) -> Result<String, AllocError>
    ensures { IfOk result (λ s. string_bytes s ≡ lines.at_words at) }
{
    match at {
        At::Node(node) => describe_node(alloc, node),
        At::Claim => String::from_str(alloc, "claim"),
    }
}

#[tactic(auto, unfolding(crate::specs::Lines::failed_line))]
fn describe_failed(alloc: Global, at: At, why: CheckWhy) -> Result<String, AllocError>
    ensures { IfOk result (λ s. string_bytes s ≡ lines.failed_line at why) }
{
    let at = describe_at(alloc, at)?;
    let why = describe_why(alloc, why)?;
    format!(in alloc; "no: {at} {why}\n")
}

/// The verdict on an answer.
#[tactic(auto, unfolding(crate::specs::Lines::verdict_line))]
pub fn describe_verdict(alloc: Global, verdict: Verdict) -> Result<String, AllocError>
    ensures { IfOk result (λ s. string_bytes s ≡ lines.verdict_line verdict) }
{
    match verdict {
        Verdict::Yes => String::from_str(alloc, "yes\n"),
        Verdict::No(at, why) => describe_failed(alloc, at, why),
    }
}
