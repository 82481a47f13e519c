ghost use Rattle.std.specs.Prelude.{◌≡◌, ◌<◌, ◌^◌, IfOk};
ghost use Rattle.hys_prog.specs.Programs.{body_connectives};
ghost use Rattle.hys_rows.specs.Items.{fresh_in as count_in, FormulaWithin};

use hys_logic::{Use, fresh_columns};
use hys_prog::Body;
use std::alloc::{AllocError, Global};

/// The number of an item's fresh columns. It depends on the columns of its formula's names alone.
pub fn fresh_in(alloc: Global, body: &Body, columns: &[u32]) -> Result<u32, AllocError>
    requires names { FormulaWithin columns.now body.now }
    requires count { body_connectives body.now < 2 ^ 32 }
    ensures { IfOk result (λ n. n ≡ count_in columns.now body.now) }
{
    match body {
        Body::Guard { number: _, eps: _ } => Ok(0),
        Body::Choice {
            when,
            hit: _,
            other: _,
        } => fresh_columns(alloc, Use::Read, when, columns),
        Body::Logic(formula) => fresh_columns(alloc, Use::Define(0), formula, columns),
        Body::Linear(_) => Ok(0),
        Body::NextBool(formula) => fresh_columns(alloc, Use::Read, formula, columns),
        Body::NextReal(_) => Ok(0),
        Body::OutBool(formula) => fresh_columns(alloc, Use::Read, formula, columns),
        Body::OutReal(_) => Ok(0),
        Body::MustHold(formula) => fresh_columns(alloc, Use::Require, formula, columns),
        Body::MustMost(_) => Ok(0),
        Body::MustZero(_) => Ok(0),
    }
}
