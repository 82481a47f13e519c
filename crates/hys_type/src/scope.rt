//! The declared names as items know them.

ghost use Rattle.std.specs.Prelude.{◌≡◌, ◌≤◌, Some, None, true, map, length, IfOk, MatchOption};
ghost use Rattle.hys_meaning.specs.Names.{is_output, is_parameter};
ghost use Rattle.hys_meaning.specs.Typed.{differ};
ghost use Rattle.hys_type.specs.Operands.{seen, lookup};
ghost use Rattle.hys_type.specs.Translation.{place_in};
ghost use Rattle.hys_type.specs.Indexed.{texts};

use hys_ast::{Kind, Section};
use hys_base::Text;
use hys_frac::Frac;
use indexmap::IndexSet;
use std::alloc::{AllocError, Global};
use std::marker::Model;

/// A declared name. `value` is a parameter's, and 0 for any other name.
#[derive(Debug, Drop)]
pub struct Declared {
    pub text: Text,
    pub section: Section,
    pub kind: Kind,
    pub value: Frac,
}

/// The declared names in their order, no two of which have one text.
#[derive(Debug, Drop)]
pub struct Scope {
    declared: Vec<Declared>,
    places: IndexSet<String>,
}

impl Model for Scope {
    ghost use Rattle.std.specs.Prelude.{List};
    ghost use Rattle.hys_type.specs.declared.scope.Declared.{Declared};
    ghost use Rattle.hys_type.specs.Indexed.{AreTexts};

    ghost Value = { List Declared };

    ghost view = { λ s. s.declared.items };

    ghost invariant = { λ s. AreTexts s.declared.items s.places.keys };
}

impl Scope {
    /// The scope of these names.
    #[tactic(auto, using(crate::proofs::Places::text_put))]
    pub fn of(alloc: Global, declared: Vec<Declared>) -> Result<Scope, AllocError>
        requires { differ (texts declared.items) ≡ true }
        ensures { IfOk result (λ s. s ≡ declared.items) }
    {
        let mut places = IndexSet::with_capacity(alloc, declared.len())?;
        for name in &declared {
            places.insert(String::from_str(alloc, name.text.text())?)?;
        }
        Ok(Scope { declared, places })
    }

    /// The number of names.
    pub fn len(&self) -> usize
        ensures { result ≡ length self.now }
    {
        self.declared.len()
    }
}

/// The place of the declared name with a text, or the number of names where none has it.
#[tactic(auto, using(crate::proofs::Places::place_found, crate::proofs::Places::none_found))]
pub fn place_in(scope: &Scope, name: &Text) -> usize
    ensures place { result ≡ place_in (map seen scope.now) name.now }
    ensures within { result ≤ length scope.now }
    ensures once { differ (texts scope.now) ≡ true }
{
    match scope.places.get_index_of(name.text()) {
        None => scope.declared.len(),
        Some(at) => at,
    }
}

/// The declared name with a text.
#[tactic(auto, using(crate::proofs::Places::name_at, crate::proofs::Places::no_name))]
pub fn look<'a>(scope: &'a Scope, name: &Text) -> Option<&'a Declared>
    ensures { MatchOption result
        (lookup scope.now name.now ≡ None) (λ d. lookup scope.now name.now ≡ Some (seen d.now)) }
{
    let at = place_in(scope, name);
    if at < scope.declared.len() {
        Some(&scope.declared[at])
    } else {
        None
    }
}

/// Whether names that are declared in the section are outputs.
pub fn is_output(section: Section) -> bool
    ensures { result ≡ is_output section }
{
    matches!(section, Section::Output)
}

/// Whether names that are declared in the section are parameters.
pub fn is_parameter(section: Section) -> bool
    ensures { result ≡ is_parameter section }
{
    matches!(section, Section::Parameter)
}
