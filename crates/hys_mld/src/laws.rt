//! What holds of the columns of names, and a worked example, as calls that do nothing.

ghost use Rattle.std.specs.Prelude.{◌≡◌, ℕ, [], ◌∷◌};
ghost use Rattle.hys_prog.specs.declared.program.Program.{Program};
ghost use Rattle.hys_prog.specs.Guarded.{d_first, guarded};
ghost use Rattle.hys_prog.specs.Programs.{IsProgram};
ghost use Rattle.hys_bound.specs.Ranges.{all_at, intervals};
ghost use Rattle.hys_exact.specs.Columns.{IsPlacing};
ghost use Rattle.hys_rows.specs.Example.{guard_operations};
ghost use Rattle.hys_mld.specs.Example.{three};
ghost use Rattle.hys_mld.specs.Fresh.{fresh_of, fresh_of_items, name_columns};
ghost use Rattle.hys_mld.specs.Numbers.{row_numbers};
ghost use Rattle.hys_mld.specs.Placing.{counts, placed_from, placing_of, start_of};

/// The names with a column have those of their system, in its order.
pub fn names_are_placed()
    ensures { (p : Program) (fresh : ℕ) → IsPlacing p fresh (placing_of p fresh) }
{}

/// A program has the same number of fresh columns whatever their number was taken to be for the
/// columns of the names.
pub fn fresh_are_counted()
    ensures { (p : Program) (fresh : ℕ) → IsProgram p → fresh_of_items (placing_of p fresh) p.items ≡ fresh_of p }
{}

/// With one fresh column a real auxiliary has the last column, though it is declared first. The
/// names of the guard's program have columns 0 and 1, and its rows ask for the guard's numbers alone.
pub fn worked()
    ensures places { placed_from (start_of (counts three) 1) three ≡ 3 ∷ 0 ∷ 1 ∷ [] }
    ensures columns { name_columns guarded ≡ 0 ∷ 1 ∷ [] }
    ensures numbers { row_numbers guarded (intervals guarded d_first) ≡ all_at 0 guard_operations }
{}
