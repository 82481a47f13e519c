//! Rows, with the labels of version 2.

ghost use Rattle.std.specs.Prelude.{◌≡◌, [], map, codes};
ghost use Rattle.serde_json.specs.View.{view};
ghost use Rattle.hys_json.specs.Checks.{Judged};
ghost use Rattle.hys_file.specs.Reading.{row_checks, labelled, after_row, first_row_checks, first_labelled, after_first_row};

use crate::form::read_terms;
use hys_base::Text;
use hys_json::{Reader, ValueFault, check_keys, member, read_fraction, read_text, within};
use hys_lin::Row;
use serde_json::Value;
use std::alloc::Global;

/// Before a row of version 1, which has no label: the number of columns.
#[derive(Drop)]
pub struct FirstRowsBefore {
    pub columns: u64,
}

/// Before a row of version 2: the number of columns.
#[derive(Drop)]
pub struct RowsBefore {
    pub columns: u64,
}

impl Reader for FirstRowsBefore {
    type Item = (Row, Text);

    ghost asked = { first_row_checks };

    ghost meant = { first_labelled };

    ghost after = { after_first_row };

    #[tactic(auto, using(hys_json::proofs::Judging::fails_first, hys_json::proofs::Judging::fails_second, hys_json::proofs::Judging::none_after_none, hys_json::proofs::Judging::fails_third, hys_json::proofs::Judging::fails_fourth, hys_json::proofs::Judging::fails_fifth, hys_json::proofs::Judging::none_of_five, hys_json::proofs::Judging::fails_under, hys_json::proofs::Judging::passes_under, hys_json::proofs::Judging::read_as, hys_json::proofs::Readings::closed_has))]
    fn read(&mut self, alloc: Global, value: &Value) -> Result<(Row, Text), ValueFault> {
        check_keys(alloc, value, &["bound", "terms"])?;
        let bound = within(alloc, "bound", read_fraction(alloc, member(value, "bound")))?;
        let terms = within(
            alloc,
            "terms",
            read_terms(alloc, self.columns, member(value, "terms")),
        )?;
        let row = Row {
            terms,
            bound,
            eq: false,
        };
        Ok((row, Text::of(String::new(alloc))))
    }
}

impl Reader for RowsBefore {
    type Item = (Row, Text);

    ghost asked = { row_checks };

    ghost meant = { labelled };

    ghost after = { after_row };

    #[tactic(auto, using(hys_json::proofs::Judging::fails_first, hys_json::proofs::Judging::fails_second, hys_json::proofs::Judging::none_after_none, hys_json::proofs::Judging::fails_third, hys_json::proofs::Judging::fails_fourth, hys_json::proofs::Judging::fails_fifth, hys_json::proofs::Judging::none_of_five, hys_json::proofs::Judging::fails_under, hys_json::proofs::Judging::passes_under, hys_json::proofs::Judging::read_as, hys_json::proofs::Readings::closed_has))]
    fn read(&mut self, alloc: Global, value: &Value) -> Result<(Row, Text), ValueFault> {
        check_keys(alloc, value, &["bound", "item", "terms"])?;
        let bound = within(alloc, "bound", read_fraction(alloc, member(value, "bound")))?;
        let label = within(alloc, "item", read_text(alloc, member(value, "item")))?;
        let terms = within(
            alloc,
            "terms",
            read_terms(alloc, self.columns, member(value, "terms")),
        )?;
        let row = Row {
            terms,
            bound,
            eq: false,
        };
        Ok((row, label))
    }
}
