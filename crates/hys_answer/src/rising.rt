//! Whether the multipliers of a tree are such as every tree keeps.

ghost use Rattle.std.specs.Prelude.{IsTrue};
ghost use Rattle.hys_relax.specs.Bound.{AreMultipliers};
ghost use Rattle.hys_tree.specs.Multiplied.{IsMultiplied, AreMultiplied};

use crate::places::is_counted;
use hys_frac::Frac;
use hys_tree::TreePlace;

// Whether the rows rise and no multiplier is 0.
fn do_rise(pairs: &[(u32, Frac)]) -> bool
    ensures { IsTrue result → AreMultipliers pairs.now }
{
    let mut least: u64 = 0;
    for pair in pairs {
        let row = pair.0 as u64;
        if row < least || !is_counted(pair) {
            return false;
        }
        least = row + 1;
    }
    true
}

fn is_multiplied(place: &TreePlace) -> bool
    ensures { IsTrue result → IsMultiplied place.now }
{
    match place {
        TreePlace::Inner(_) => true,
        TreePlace::Cost(multipliers, _) => do_rise(multipliers.pairs.items()),
        TreePlace::Never(multipliers, _) => do_rise(multipliers.pairs.items()),
    }
}

/// Whether in each place the rows rise and no multiplier is 0.
#[tactic(auto, using(hys_json::proofs::Fitted::all_next, hys_json::proofs::Fitted::all_done))]
pub fn are_multiplied(places: &[TreePlace]) -> bool
    ensures { IsTrue result → AreMultiplied places.now }
{
    for place in places {
        if !is_multiplied(place) {
            return false;
        }
    }
    true
}
