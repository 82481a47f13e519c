ghost use Rattle.std.specs.Prelude.{◌≡◌, ◌<◌, IfOk, length};
ghost use Rattle.hys_lin.specs.Ranges.{ranging};
ghost use Rattle.hys_bound.specs.Ranges.{range};
ghost use Rattle.hys_rows.specs.Adding.{IsBoxed};
ghost use Rattle.hys_rows.specs.Numbers.{Judged};

use crate::fault::RowFault;
use hys_lin::{Affine, Interval, range_of};

/// The least and the greatest value of a form over the intervals of its names.
pub fn range_in(form: &Affine, boxes: &[Interval]) -> Result<Interval, RowFault>
    requires { IsBoxed boxes.now form.now }
    ensures value { IfOk result (λ r. r ≡ range boxes.now form.now) }
    ensures judged { Judged (ranging boxes.now form.now) result }
{
    Ok(range_of(form, boxes)?)
}
