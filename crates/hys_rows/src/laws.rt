//! Laws of fresh columns, and worked examples. The calls do nothing.

ghost use Rattle.std.specs.Prelude.{◌≡◌, ℕ, List, [], ◌∷◌};
ghost use Rattle.hys_prog.specs.declared.program.Name.{Name};
ghost use Rattle.hys_prog.specs.Guarded.{guarded, d_first, d_item};
ghost use Rattle.hys_lin.specs.Stated.{AreRows};
ghost use Rattle.hys_bound.specs.Ranges.{intervals};
ghost use Rattle.hys_exact.specs.Example.{guard_system};
ghost use Rattle.hys_rows.specs.Items.{AreAlike, HaveSameCounts, Fits};
ghost use Rattle.hys_rows.specs.Moved.{moved};
ghost use Rattle.hys_rows.specs.Numbers.{numbers_of};
ghost use Rattle.hys_rows.specs.Parts.{stated_in};
ghost use Rattle.hys_rows.specs.Example.{before, behind, places, guard_operations};

/// The number of an item's fresh columns depends on the columns of Boolean names alone: so it can
/// be counted before real auxiliaries have theirs.
pub fn fresh_counts()
    ensures { (names : List Name) (cs ds : List ℕ) → AreAlike names cs ds → HaveSameCounts names cs ds }
{}

/// A form over two names whose columns fall is a form over the columns in their order. The guard of
/// a small program fits with its columns, its rows are those of the program's system, and it asks for
/// three numbers beside the ends of its interval.
pub fn worked()
    ensures moved { moved places before ≡ behind }
    ensures fits { Fits guarded.names (intervals guarded d_first) (0 ∷ 1 ∷ []) 2 d_item }
    ensures rows { AreRows guard_system.rows (stated_in (intervals guarded d_first) (0 ∷ 1 ∷ []) 2 d_item) }
    ensures numbers { numbers_of (intervals guarded d_first) (0 ∷ 1 ∷ []) 2 d_item.body ≡ guard_operations }
{}
