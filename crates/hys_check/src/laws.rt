//! Verdicts on a worked tree, as a call that does nothing.

ghost use Rattle.hys_check.specs.Worked.{WorkedVerdicts};

/// The verdicts on the tree of a worked problem, and on trees and claims that differ from it in one
/// place.
pub fn worked_verdicts()
    ensures { WorkedVerdicts }
{}
