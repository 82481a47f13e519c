use hys_frac::{Frac, List};

/// A factor for each named row; that of the other rows is 0. The rows rise strictly, and no factor
/// is 0. Such multipliers give a lower bound on the cost by weak duality.
#[derive(Clone, Debug, PartialEq, Eq, Drop)]
pub struct Multipliers {
    pub pairs: List<(u32, Frac)>,
}
