use hys_frac::Frac;

/// The end of its range at which a variable outside the basis stands: the upper one where its raised
/// cost cell is above 0.
#[derive(Clone, Copy, Debug)]
pub struct End {
    pub above: bool,
    pub value: Frac,
}
