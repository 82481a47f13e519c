//! The lines of `plan`: why a request is refused, and what is claimed of it.

ghost use Rattle.std.specs.Prelude.{◌≡◌, IfOk, string_bytes};
ghost use Rattle.hys_app.specs.Lines as lines;

use crate::lines::describe_lost;
use hys_frac::Frac;
use hys_lin::Lost;
use hys_stack::RequestFault;
use hys_tree::{Best, Claim, Why};
use std::alloc::{AllocError, Global};

// Words, and a text behind them.
fn describe_shape(alloc: Global, path: &str) -> Result<String, AllocError>
    ensures { IfOk result (λ s. string_bytes s ≡ lines.shape_words path.now) }
{
    format!(in alloc; "shape {path}")
}

fn describe_number(alloc: Global, path: &str) -> Result<String, AllocError>
    ensures { IfOk result (λ s. string_bytes s ≡ lines.number_words path.now) }
{
    format!(in alloc; "number {path}")
}

fn describe_name(alloc: Global, name: &str) -> Result<String, AllocError>
    ensures { IfOk result (λ s. string_bytes s ≡ lines.name_words name.now) }
{
    format!(in alloc; "name {name}")
}

fn describe_start(alloc: Global, name: &str) -> Result<String, AllocError>
    ensures { IfOk result (λ s. string_bytes s ≡ lines.start_words name.now) }
{
    format!(in alloc; "start {name}")
}

fn describe_limit(alloc: Global, what: &str) -> Result<String, AllocError>
    ensures { IfOk result (λ s. string_bytes s ≡ lines.limit_words what.now) }
{
    format!(in alloc; "limit {what}")
}

/// Why a request is refused.
#[tactic(auto, unfolding(crate::specs::Lines::request_words))]
pub fn describe_request(alloc: Global, fault: &RequestFault) -> Result<String, AllocError>
    ensures { IfOk result (λ s. string_bytes s ≡ lines.request_words fault.now) }
{
    match fault {
        RequestFault::Json => String::from_str(alloc, "json"),
        RequestFault::Shape(path) => describe_shape(alloc, path.text()),
        RequestFault::Number(path) => describe_number(alloc, path.text()),
        RequestFault::Name(name) => describe_name(alloc, name.text()),
        RequestFault::Start(name) => describe_start(alloc, name.text()),
        RequestFault::Limit(what) => describe_limit(alloc, what.text()),
        RequestFault::TooLarge => String::from_str(alloc, "too large"),
        RequestFault::Memory => Ok(String::new(alloc)),
    }
}

/// A number of the stacked problem doesn't fit.
#[tactic(auto, unfolding(crate::specs::Lines::range_words))]
pub fn describe_overflow(alloc: Global, lost: Lost) -> Result<String, AllocError>
    ensures { IfOk result (λ s. string_bytes s ≡ lines.range_words lost) }
{
    let operands = describe_lost(alloc, lost)?;
    format!(in alloc; "range {operands}")
}

#[tactic(auto, unfolding(crate::specs::Lines::best_text))]
fn describe_best(alloc: Global, best: &Option<Best>) -> Result<String, AllocError>
    ensures { IfOk result (λ s. string_bytes s ≡ lines.best_text best.now) }
{
    match best {
        None => String::from_str(alloc, "none"),
        Some(best) => best.cost.text(alloc),
    }
}

// The lower bound, and the best found.
#[tactic(auto, unfolding(crate::specs::Lines::bound_text))]
fn describe_bound(alloc: Global, bound: Frac, best: &Option<Best>) -> Result<String, AllocError>
    ensures { IfOk result (λ s. string_bytes s ≡ lines.bound_text bound best.now) }
{
    let bound = bound.text(alloc)?;
    let best = describe_best(alloc, best)?;
    format!(in alloc; "lower bound {bound}, best {best}")
}

#[tactic(auto, unfolding(crate::specs::Lines::spent_line))]
fn describe_spent(
    alloc: Global,
    nodes: u32,
    bound: Frac,
    best: &Option<Best>,
) -> Result<String, AllocError>
    ensures { IfOk result (λ s. string_bytes s ≡ lines.spent_line nodes bound best.now) }
{
    let bounds = describe_bound(alloc, bound, best)?;
    format!(in alloc; "spent: {nodes} nodes, {bounds}\n")
}

#[tactic(auto, unfolding(crate::specs::Lines::lossy_line))]
fn describe_lossy(
    alloc: Global,
    node: u32,
    bound: Frac,
    best: &Option<Best>,
) -> Result<String, AllocError>
    ensures { IfOk result (λ s. string_bytes s ≡ lines.lossy_line node bound best.now) }
{
    let bounds = describe_bound(alloc, bound, best)?;
    format!(in alloc; "range: node {node}, {bounds}\n")
}

#[tactic(auto, unfolding(crate::specs::Lines::end_line))]
fn describe_end(
    alloc: Global,
    bound: Frac,
    best: &Option<Best>,
    why: &Why,
) -> Result<String, AllocError>
    ensures { IfOk result (λ s. string_bytes s ≡ lines.end_line bound best.now why.now) }
{
    match why {
        Why::Spent(nodes) => describe_spent(alloc, *nodes, bound, best),
        Why::Range { node, .. } => describe_lossy(alloc, *node, bound, best),
    }
}

#[tactic(auto, unfolding(crate::specs::Lines::least_line))]
fn describe_least(alloc: Global, cost: Frac) -> Result<String, AllocError>
    ensures { IfOk result (λ s. string_bytes s ≡ lines.least_line cost) }
{
    let cost = cost.text(alloc)?;
    format!(in alloc; "least {cost}\n")
}

/// What is claimed of a request.
#[tactic(auto, unfolding(crate::specs::Lines::claim_line))]
pub fn describe_claim(alloc: Global, claim: &Claim) -> Result<String, AllocError>
    ensures { IfOk result (λ s. string_bytes s ≡ lines.claim_line claim.now) }
{
    match claim {
        Claim::Least(best) => describe_least(alloc, best.cost),
        Claim::NoneExists => String::from_str(alloc, "none\n"),
        Claim::AtLeast { bound, best, why } => describe_end(alloc, *bound, best, why),
    }
}
