//! What is a problem and what isn't, by a small one with three columns. The calls do nothing.

ghost use Rattle.std.specs.Prelude.{[], ◌∷◌};
ghost use Rattle.hys_lin.specs.Problem.{IsProblem};
ghost use Rattle.hys_lin.specs.Example.{branching};

/// Columns with box 0 to 1 may be branched, or none.
pub fn lawful_branches()
    ensures both { IsProblem (branching (0 ∷ 2 ∷ [])) }
    ensures none { IsProblem (branching []) }
{}

/// A column to be branched has the box 0 to 1, and stands once, behind those below it.
pub fn unlawful_branches()
    ensures wide { IsProblem (branching (1 ∷ [])) → ⊥ }
    ensures falling { IsProblem (branching (2 ∷ 0 ∷ [])) → ⊥ }
    ensures twice { IsProblem (branching (0 ∷ 0 ∷ [])) → ⊥ }
    ensures beyond { IsProblem (branching (0 ∷ 3 ∷ [])) → ⊥ }
{}
