//! What holds of the numbers that names take, as calls that do nothing.

ghost use Rattle.std.specs.Prelude.{◌≡◌, ◌↔◌, List};
ghost use Rattle.hys_prog.specs.declared.program.Program.{Program};
ghost use Rattle.hys_prog.specs.declared.program.Order.{Order};
ghost use Rattle.hys_prog.specs.Orders.{IsOrder};
ghost use Rattle.hys_number.specs.Ops.{whole};
ghost use Rattle.hys_prog.specs.Example.{crossed};
ghost use Rattle.hys_lin.specs.declared.form.Interval.{Interval};
ghost use Rattle.hys_bound.specs.Ranges.{intervals};
ghost use Rattle.hys_bound.specs.Fixed.{AreFixed};
ghost use Rattle.hys_bound.specs.Values.{TakesValues, TakesLegalValues};
ghost use Rattle.hys_bound.specs.Example.{of_three};

/// The names take the numbers of every legal step, so that intervals that hold what the names take
/// hold these.
pub fn a_legal_step()
    ensures { (p : Program) → TakesLegalValues p }
{}

/// The intervals are the only ones that are those of the definitions over themselves: each auxiliary
/// has the interval of its definition over the intervals of all names, each other name its declared
/// one. So they don't depend on the order along which they are found.
pub fn one_fixpoint()
    ensures { (p : Program) (o : Order) (boxes : List Interval) → IsOrder p o →
        AreFixed p boxes ↔ (boxes ≡ intervals p o) }
{}

/// Where z is w + 1, w is twice x and x is from 0 to 10, the names take 4, 9, 8 together, not 4, 8, 8
/// and not 11, 23, 22.
pub fn two_auxiliaries()
    ensures takes { TakesValues (crossed 0) (of_three (whole 4) (whole 9) (whole 8)) }
    ensures case { ¬ (TakesValues (crossed 0) (of_three (whole 4) (whole 8) (whole 8))) }
    ensures outside { ¬ (TakesValues (crossed 0) (of_three (whole 11) (whole 23) (whole 22))) }
{}
