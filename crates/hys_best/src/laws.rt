//! What holds of plans for accepted sources, as calls that do nothing.

ghost use Rattle.hys_best.specs.Laws.{SourcesKeepKinds, PlansAreBest};

/// The next state of a legal step of an accepted source has 0 or 1 in its Boolean states.
pub fn keeps_kinds()
    ensures { SourcesKeepKinds }
{}

/// An answer that is shown for the stacked problem of a source that was compiled means what it says of the source: its
/// point is a trajectory than which none is cheaper, or there is no trajectory, or each costs at least the bound.
pub fn plans_are_best()
    ensures { PlansAreBest }
{}
