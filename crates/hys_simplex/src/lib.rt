//! The theory of the ruled dual simplex method with bounds, over exact numbers: tableaux, statuses,
//! the lexicographic rule, paths of pivots, and the numbers that don't fit.
#![tactic(auto)]

pub mod laws;
