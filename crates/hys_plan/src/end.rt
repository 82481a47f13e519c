ghost use Rattle.std.specs.Prelude.{◌≡◌, ℕ, true, false, IfOk, MatchOption};
ghost use Rattle.hys_search.specs.Core.{Holds, NoneKept};
ghost use Rattle.hys_search.specs.Places.{IsLower, IsKeptCause};
ghost use Rattle.hys_search.specs.Standings.{IsSettledBy, Beats};
ghost use Rattle.hys_plan.specs.Answer.{IsNotSpent};
ghost use Rattle.hys_plan.specs.Planned.{IsOpenAt, NoneOpen, IsStopped, AllowsAll, EndClaims, IsAnswerOf};

use hys_frac::{Frac, List};
use hys_lin::Point;
use hys_search::Search;
use hys_tree::{Answer, Best, Claim, Why};
use std::alloc::{AllocError, Global};
use std::cmp::Ordering;

/// Whether an open node waits: one whose bound is below the best cost, where a solution was found.
pub fn is_open(search: &Search) -> bool
    ensures open { result ≡ true → (k : ℕ) × IsOpenAt search.now k }
    ensures none { result ≡ false → NoneOpen search.now }
{
    for entry in search.waiting() {
        if !is_settled(search, entry.bound) {
            return true;
        }
    }
    false
}

// Whether the best cost is at most a bound.
fn is_settled(search: &Search, bound: Frac) -> bool
    ensures settled { result ≡ true → IsSettledBy search.now.found bound }
    ensures beats { result ≡ false → Beats search.now.found bound }
{
    match search.found() {
        None => false,
        Some(best) => match best.cost.cmp(bound) {
            Ordering::Less => true,
            Ordering::Equal => true,
            Ordering::Greater => false,
        },
    }
}

/// The answer, where nothing is left to do.
pub fn finish(alloc: Global, search: &Search) -> Result<Answer, AllocError>
    requires holds { Holds search.now }
    requires stopped { IsStopped search.now }
    ensures answer { IfOk result (λ a. IsAnswerOf search.now a) }
    ensures ends { AllowsAll search.now.problem search.now.limit → IfOk result (λ a. IsNotSpent a.claim) }
{
    let tree = search.tree(alloc)?;
    let claim = conclude(alloc, search)?;
    Ok(Answer {
        claim,
        tree,
        expanded: search.expanded(),
    })
}

// The claim, from what is left.
fn conclude(alloc: Global, search: &Search) -> Result<Claim, AllocError>
    requires holds { Holds search.now }
    requires stopped { IsStopped search.now }
    ensures claim { IfOk result (λ c. EndClaims search.now c) }
    ensures ends { AllowsAll search.now.problem search.now.limit → IfOk result (λ c. IsNotSpent c) }
{
    let found = best(alloc, search)?;
    let kept = search.kept(alloc)?;
    let lower = search.lower();
    let waits = is_open(search);
    Ok(claim(search, lower, found, waits, kept))
}

// The claim, by the lower bound, the best found, whether an open node waits, and why a leaf was kept.
fn claim(
    search: &Search,
    lower: Option<Frac>,
    found: Option<Best>,
    waits: bool,
    kept: Option<Why>,
) -> Claim
    requires holds { Holds search.now }
    requires stopped { IsStopped search.now }
    requires lower { IsLower search.now lower }
    requires found { found ≡ search.now.found }
    requires some { waits ≡ true → (k : ℕ) × IsOpenAt search.now k }
    requires none { waits ≡ false → NoneOpen search.now }
    requires kept { MatchOption kept (NoneKept search.now) (λ w. IsKeptCause search.now w) }
    ensures claim { EndClaims search.now result }
    ensures ends { AllowsAll search.now.problem search.now.limit → IsNotSpent result }
{
    match lower {
        None => Claim::NoneExists,
        Some(bound) => {
            let best = found;
            if waits {
                let why = Why::Spent(search.expanded());
                return Claim::AtLeast { bound, best, why };
            }
            match kept {
                Some(why) => Claim::AtLeast { bound, best, why },
                None => match best {
                    Some(best) => Claim::Least(best),
                    None => Claim::NoneExists,
                },
            }
        }
    }
}

// The best solution again.
fn best(alloc: Global, search: &Search) -> Result<Option<Best>, AllocError>
    ensures { IfOk result (λ b. b ≡ search.now.found) }
{
    match search.found() {
        None => Ok(None),
        Some(best) => {
            let values = Vec::from_slice(alloc, best.point.values.items())?;
            Ok(Some(Best {
                point: Point {
                    values: List::of(values),
                },
                cost: best.cost,
            }))
        }
    }
}
