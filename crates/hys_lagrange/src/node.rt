ghost use Rattle.std.specs.Prelude.{◌≡◌, ◌<◌, ℕ, length, IfOk};
ghost use Rattle.hys_lin.specs.Bits.{bit};
ghost use Rattle.hys_lin.specs.Ranges.{box_at};
ghost use Rattle.hys_relax.specs.Node.{node_boxes as node_boxes_of, only};
ghost use Rattle.hys_lagrange.specs.Fixed.{AreWithin};

use hys_frac::Frac;
use hys_lin::{Interval, Problem};
use hys_relax::Fixing;
use std::alloc::{AllocError, Global};

/// The boxes of a node: those of the problem, with the fixed columns at their numbers.
pub fn node_boxes(
    alloc: Global,
    problem: &Problem,
    fixings: &[Fixing],
) -> Result<Vec<Interval>, AllocError>
    requires fixings { AreWithin (length problem.now.boxes) fixings.now }
    ensures long { IfOk result (λ bs. length bs.items ≡ length problem.now.boxes) }
    ensures each { IfOk result (λ bs. (j : ℕ) → box_at bs.items j ≡ node_boxes_of problem.now fixings.now j) }
{
    let mut boxes = Vec::from_slice(alloc, problem.boxes.items())?;
    let mut left = fixings.len();
    while left > 0 {
        left -= 1;
        let fixing = fixings[left];
        boxes[fixing.column as usize] = fixed(fixing.one);
    }
    Ok(boxes)
}

// The interval of 1 alone, or of 0 alone.
fn fixed(one: bool) -> Interval
    ensures { result ≡ only (bit one) }
{
    let number = if one { Frac::whole(1) } else { Frac::whole(0) };
    Interval {
        low: number,
        high: number,
    }
}
