//! Laws of the fresh truths of formulas. The calls do nothing.

ghost use Rattle.std.specs.Prelude.{ℕ, ◌≤◌};
ghost use Rattle.hys_formula.specs.Formulas.{FormulaTree, connectives};
ghost use Rattle.hys_logic.specs.declared.usage.Use.{Use as Usage};
ghost use Rattle.hys_logic.specs.Uses.{fresh_count, SameTruths, AreCounted, SameCounts};

/// The fresh truths of a formula depend on the numbers of its names alone, and there are as many as
/// fresh columns.
pub fn fresh_truths()
    ensures names { (u : Usage) (p : ℕ → ℕ) (f : FormulaTree) → SameTruths u p f }
    ensures count { (u : Usage) (p : ℕ → ℕ) (f : FormulaTree) → AreCounted u p f }
{}

/// The number of fresh columns depends on the columns of the formula's names alone, and is at most
/// that of its connectives.
pub fn fresh_counts()
    ensures columns { (u : Usage) (p : ℕ → ℕ) (f : FormulaTree) → SameCounts u p f }
    ensures few { (u : Usage) (p : ℕ → ℕ) (f : FormulaTree) → fresh_count u p f ≤ connectives f }
{}
