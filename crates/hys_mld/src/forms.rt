ghost use Rattle.std.specs.Prelude.{◌≡◌, ◌<◌, length, map, IfOk};
ghost use Rattle.std.proofs.Common.{get_or};
ghost use Rattle.hys_prog.specs.Steps.{is_state, places_from};
ghost use Rattle.hys_exact.specs.Built.{is_output_name};
ghost use Rattle.hys_exact.specs.Columns.{of_each};
ghost use Rattle.hys_mld.specs.Forms.{HaveForms, form_at, output_at};

use crate::columns::kind_of;
use hys_base::List;
use hys_lin::Affine;
use hys_prog::{Name, Role};
use hys_sys::Output;
use std::alloc::{AllocError, Global};

// A copy of the form of the item that defines the name.
fn form_of(
    alloc: Global,
    name: usize,
    places: &[usize],
    forms: &[Affine],
) -> Result<Affine, AllocError>
    requires place { name < length places.now }
    requires form { get_or places.now name 0 < length forms.now }
    ensures { IfOk result (λ f. f ≡ form_at places.now forms.now name) }
{
    let form = &forms[places[name]];
    Ok(Affine {
        terms: List::of(Vec::from_slice(alloc, form.terms.items())?),
        constant: form.constant,
    })
}

// The forms of the next values, one for each state.
#[tactic(auto, using(crate::proofs::Defining::state_form, crate::proofs::Defining::name_within))]
pub fn next_forms(
    alloc: Global,
    names: &[Name],
    places: &[usize],
    forms: &[Affine],
) -> Result<Vec<Affine>, AllocError>
    requires { HaveForms names.now places.now forms.now }
    ensures { IfOk result (λ r. r.items ≡ map (form_at places.now forms.now) (places_from 0 is_state names.now)) }
{
    let mut next = Vec::new(alloc);
    for (n, name) in names.iter().enumerate() {
        if name.role == Role::State {
            next.push(form_of(alloc, n, places, forms)?)?;
        }
    }
    Ok(next)
}

// The outputs with their forms.
#[tactic(auto, using(crate::proofs::Defining::output_form, crate::proofs::Defining::name_within))]
pub fn output_forms(
    alloc: Global,
    names: &[Name],
    places: &[usize],
    forms: &[Affine],
) -> Result<Vec<Output>, AllocError>
    requires { HaveForms names.now places.now forms.now }
    ensures { IfOk result (λ r. r.items ≡ of_each is_output_name (output_at places.now forms.now) 0 names.now) }
{
    let mut outputs = Vec::new(alloc);
    for (n, name) in names.iter().enumerate() {
        if name.role == Role::Output {
            outputs.push(Output {
                name: name.text.clone()?,
                kind: kind_of(name.kind),
                form: form_of(alloc, n, places, forms)?,
            })?;
        }
    }
    Ok(outputs)
}
