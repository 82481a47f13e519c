//! Laws of matrix texts, as calls that do nothing.

ghost use Rattle.hys_file.specs.Laws.{HaveOneCause, StandForOne, NoneIsBoth, StandForLawful, FirstHaveNoLabels};

/// A text stands for at most one system, has at most one cause to be refused, and never both.
pub fn one_answer()
    ensures system { StandForOne }
    ensures cause { HaveOneCause }
    ensures not_both { NoneIsBoth }
{}

/// The system that a text stands for is lawful.
pub fn read_is_lawful()
    ensures { StandForLawful }
{}

/// The system of a text of version 1 has an empty label for each row.
pub fn first_has_no_labels()
    ensures { FirstHaveNoLabels }
{}
