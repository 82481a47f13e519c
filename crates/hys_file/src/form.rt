//! Terms and forms.

ghost use Rattle.std.specs.Prelude.{◌≡◌, ◌&&◌, nat_le, nat_lt, map};
ghost use Rattle.serde_json.specs.View.{view};
ghost use Rattle.hys_json.specs.Checks.{Judged};
ghost use Rattle.hys_file.specs.Reading.{pair_checks, ArePair, term_checks, term_in, after_term, terms_checks, terms_in, form_checks, form_in, form_asked, after_form, is_zero};

use hys_base::List;
use hys_frac::Frac;
use hys_json::{
    Reader, ValueFault, check, check_keys, here, member, read_fraction, read_items, read_list,
    read_whole, within,
};
use hys_lin::{Affine, Term};
use serde_json::Value;
use std::alloc::Global;
use std::cmp::Ordering;

/// The two items of a list of two.
#[tactic(auto, unfolding(crate::specs::Reading::pair_checks))]
pub fn read_pair<'v>(alloc: Global, value: &'v Value) -> Result<(&'v Value, &'v Value), ValueFault>
    ensures { Judged (pair_checks (view value.now)) (ArePair (view value.now)) result }
{
    let items = read_items(alloc, value)?;
    if items.len() == 2 {
        Ok((&items[0], &items[1]))
    } else {
        Err(here(alloc))
    }
}

/// Before a term: the number of columns, and the least column that the term may have.
#[derive(Drop)]
pub struct TermsBefore {
    pub columns: u64,
    pub least: u64,
}

impl TermsBefore {
    /// Whether the next term may have this column.
    pub fn allows(&self, column: u64) -> bool
        ensures { result ≡ nat_le self.now.least column && nat_lt column self.now.columns }
    {
        self.least <= column && column < self.columns
    }
}

/// Whether the number is 0.
pub fn is_zero(number: Frac) -> bool
    ensures { result ≡ is_zero number }
{
    matches!(Ord::cmp(&number, &Frac::whole(0)), Ordering::Equal)
}

impl Reader for TermsBefore {
    type Item = Term;

    ghost asked = { term_checks };

    ghost meant = { term_in };

    ghost after = { after_term };

    #[tactic(auto, using(hys_json::proofs::Judging::fails_first, hys_json::proofs::Judging::fails_second, hys_json::proofs::Judging::none_after_none, hys_json::proofs::Judging::fails_third, hys_json::proofs::Judging::fails_fourth, hys_json::proofs::Judging::fails_fifth, hys_json::proofs::Judging::none_of_five, hys_json::proofs::Judging::fails_under, hys_json::proofs::Judging::passes_under, hys_json::proofs::Judging::read_as, hys_json::proofs::Readings::closed_has))]
    fn read(&mut self, alloc: Global, value: &Value) -> Result<Term, ValueFault> {
        let (first, second) = read_pair(alloc, value)?;
        let column = within(alloc, "0", read_whole(alloc, first))?;
        let factor = within(alloc, "1", read_fraction(alloc, second))?;
        within(alloc, "0", check(alloc, self.allows(column as u64)))?;
        within(alloc, "1", check(alloc, !is_zero(factor)))?;
        self.least = column as u64 + 1;
        Ok(Term { column, factor })
    }
}

/// The terms of a form over so many columns.
pub fn read_terms(alloc: Global, columns: u64, value: &Value) -> Result<List<Term>, ValueFault>
    ensures { Judged (terms_checks columns (view value.now)) (λ ts. ts ≡ terms_in (view value.now)) result }
{
    let mut before = TermsBefore { columns, least: 0 };
    let terms = read_list(alloc, &mut before, value)?;
    Ok(List::of(terms))
}

/// A form over so many columns.
#[tactic(auto, using(hys_json::proofs::Judging::fails_first, hys_json::proofs::Judging::fails_second, hys_json::proofs::Judging::none_after_none, hys_json::proofs::Judging::fails_third, hys_json::proofs::Judging::fails_fourth, hys_json::proofs::Judging::fails_fifth, hys_json::proofs::Judging::none_of_five, hys_json::proofs::Judging::fails_under, hys_json::proofs::Judging::passes_under, hys_json::proofs::Judging::read_as, hys_json::proofs::Readings::closed_has))]
pub fn read_form(alloc: Global, columns: u64, value: &Value) -> Result<Affine, ValueFault>
    ensures { Judged (form_checks columns (view value.now)) (λ f. f ≡ form_in (view value.now)) result }
{
    check_keys(alloc, value, &["constant", "terms"])?;
    let constant = within(
        alloc,
        "constant",
        read_fraction(alloc, member(value, "constant")),
    )?;
    let terms = within(
        alloc,
        "terms",
        read_terms(alloc, columns, member(value, "terms")),
    )?;
    Ok(Affine { terms, constant })
}

/// Before a form of a next value: the number of columns.
#[derive(Drop)]
pub struct FormsBefore {
    pub columns: u64,
}

impl Reader for FormsBefore {
    type Item = Affine;

    ghost asked = { form_asked };

    ghost meant = { form_in };

    ghost after = { after_form };

    fn read(&mut self, alloc: Global, value: &Value) -> Result<Affine, ValueFault> {
        read_form(alloc, self.columns, value)
    }
}
