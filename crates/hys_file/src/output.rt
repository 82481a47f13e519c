//! Outputs.

ghost use Rattle.std.specs.Prelude.{◌≡◌, map, length};
ghost use Rattle.serde_json.specs.View.{view};
ghost use Rattle.hys_json.specs.Checks.{Judged};
ghost use Rattle.hys_file.specs.Reading.{output_parts, output_checks, output_in, after_output};

use crate::form::read_terms;
use crate::names::Names;
use crate::words::read_kind;
use hys_json::{Reader, ValueFault, check, check_keys, member, read_fraction, read_text, within};
use hys_lin::Affine;
use hys_sys::Output;
use serde_json::Value;
use std::alloc::Global;

/// Before an output: the number of columns, and the names of the columns and of the outputs before.
#[derive(Drop)]
pub struct OutputsBefore {
    pub columns: u64,
    pub names: Names,
}

// An output over so many columns, by itself.
#[tactic(auto, using(hys_json::proofs::Judging::fails_first, hys_json::proofs::Judging::fails_second, hys_json::proofs::Judging::none_after_none, hys_json::proofs::Judging::fails_third, hys_json::proofs::Judging::fails_fourth, hys_json::proofs::Judging::fails_fifth, hys_json::proofs::Judging::none_of_five, hys_json::proofs::Judging::fails_under, hys_json::proofs::Judging::passes_under, hys_json::proofs::Judging::read_as, hys_json::proofs::Readings::closed_has), unfolding(crate::specs::Reading::output_parts))]
fn read_parts(alloc: Global, columns: u64, value: &Value) -> Result<Output, ValueFault>
    ensures { Judged (output_parts columns (view value.now)) (λ o. o ≡ output_in (view value.now)) result }
{
    check_keys(alloc, value, &["constant", "kind", "name", "terms"])?;
    let constant = within(
        alloc,
        "constant",
        read_fraction(alloc, member(value, "constant")),
    )?;
    let kind = within(alloc, "kind", read_kind(alloc, member(value, "kind")))?;
    let name = within(alloc, "name", read_text(alloc, member(value, "name")))?;
    let terms = within(
        alloc,
        "terms",
        read_terms(alloc, columns, member(value, "terms")),
    )?;
    Ok(Output {
        name,
        kind,
        form: Affine { terms, constant },
    })
}

impl Reader for OutputsBefore {
    type Item = Output;

    ghost asked = { output_checks };

    ghost meant = { output_in };

    ghost after = { after_output };

    #[tactic(auto, using(hys_json::proofs::Judging::fails_first, hys_json::proofs::Judging::fails_second, hys_json::proofs::Judging::none_after_none, hys_json::proofs::Judging::fails_third, hys_json::proofs::Judging::fails_fourth, hys_json::proofs::Judging::fails_fifth, hys_json::proofs::Judging::none_of_five, hys_json::proofs::Judging::fails_under, hys_json::proofs::Judging::passes_under, hys_json::proofs::Judging::read_as, hys_json::proofs::Readings::closed_has, crate::proofs::Lawful::output_fresh))]
    fn read(&mut self, alloc: Global, value: &Value) -> Result<Output, ValueFault> {
        let output = read_parts(alloc, self.columns, value)?;
        within(
            alloc,
            "name",
            check(alloc, !self.names.has(output.name.text())),
        )?;
        self.names.add(alloc, output.name.text())?;
        Ok(output)
    }
}
