ghost use Rattle.std.specs.Prelude.{◌≡◌};
ghost use Rattle.hys_rows.specs.Parts.{no_form};
ghost use Rattle.hys_rows.specs.Adding.{HasNothing};

use hys_frac::{Frac, List};
use hys_lin::Affine;
use std::alloc::Global;

/// What beside rows stands for an item: the number of its fresh columns, and the form of the next
/// value or the output that it defines, which has no terms for another item.
#[derive(Clone, Debug, PartialEq, Eq, Drop)]
pub struct Added {
    pub fresh: u32,
    pub form: Affine,
}

/// No fresh column and no form.
pub fn nothing(alloc: Global) -> Added
    ensures { HasNothing result }
{
    only_fresh(alloc, 0)
}

/// So many fresh columns, and no form.
pub fn only_fresh(alloc: Global, fresh: u32) -> Added
    ensures fresh { result.fresh ≡ fresh }
    ensures form { result.form ≡ no_form }
{
    Added {
        fresh,
        form: Affine {
            terms: List::of(Vec::new(alloc)),
            constant: Frac::whole(0),
        },
    }
}
