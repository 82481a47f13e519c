use hys_base::List;
use hys_relax::Multipliers;

/// A place of a tree. Below an inner place its branch column is fixed to 0 and to 1; a leaf has multipliers of the
/// problem's rows and a depth, and counts over the boxes of the first so many fixings of its path.
#[derive(Clone, Debug, PartialEq, Eq, Drop)]
pub enum TreePlace {
    /// The branch column.
    Inner(u32),
    /// Multipliers that bound the cost from below, and the depth.
    Cost(Multipliers, u32),
    /// Multipliers that show that there is no point, and the depth.
    Never(Multipliers, u32),
}

/// The places of a tree in preorder, the child with the column at 0 first.
#[derive(Clone, Debug, PartialEq, Eq, Drop)]
pub struct Tree {
    pub places: List<TreePlace>,
}
