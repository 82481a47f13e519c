/// A branch column held at 1 where `one`, else at 0. A node of the search is a list of fixings of
/// different branch columns.
#[derive(Clone, Copy, Debug, PartialEq, Eq)]
pub struct Fixing {
    pub column: u32,
    pub one: bool,
}
