//! The names that were met.

ghost use Rattle.std.specs.Prelude.{◌≡◌, [], ◌∷◌, ◌++◌, false, OnOk, map};
ghost use Rattle.hys_json.specs.Values.{is_one_of};

use indexmap::IndexSet;
use std::alloc::{AllocError, Global};
use std::marker::Model;

/// The names of columns and outputs that stand before another.
#[derive(Drop)]
pub struct Names {
    names: IndexSet<String>,
}

impl Model for Names {
    ghost use Rattle.std.specs.Prelude.{List, ℕ, map, string_bytes};

    ghost Value = { List (List ℕ) };

    ghost view = { λ it. map string_bytes it.names.keys };
}

impl Names {
    pub fn new(alloc: Global) -> Names
        ensures { result ≡ [] }
    {
        Names {
            names: IndexSet::new(alloc),
        }
    }

    pub fn has(&self, name: &str) -> bool
        ensures { result ≡ is_one_of self.now name.now }
    {
        self.names.contains(name)
    }

    /// Adds a name that isn't there yet.
    #[tactic(auto, using(crate::proofs::Known::added))]
    pub fn add(&mut self, alloc: Global, name: &str) -> Result<(), AllocError>
        requires { is_one_of self.old name.now ≡ false }
        ensures { OnOk result (self.new ≡ self.old ++ name.now ∷ []) }
    {
        self.names.insert(String::from_str(alloc, name)?)?;
        Ok(())
    }
}
