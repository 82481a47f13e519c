//! Laws of the texts of answers, as calls that do nothing.

ghost use Rattle.hys_answer.specs.Laws.{HaveOneCause, StandForOne, NoneIsBoth, StandForMultiplied};

/// A text stands for at most one answer, has at most one cause to be refused, and never both.
pub fn one_answer()
    ensures answer { StandForOne }
    ensures cause { HaveOneCause }
    ensures not_both { NoneIsBoth }
{}

/// In the tree that a text stands for rows of multipliers rise and no multiplier is 0.
pub fn read_is_multiplied()
    ensures { StandForMultiplied }
{}
