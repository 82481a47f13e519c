//! Which numbers of a source are computed, and the first that doesn't fit 64 bits.

ghost use Rattle.std.specs.Prelude.{◌≡◌, ℕ, [], ◌∷◌, codes, List, None, IsTrue, map};
ghost use Rattle.hys_number.specs.Number.{Number};
ghost use Rattle.hys_number.specs.Ops.{whole, neg, fits};
ghost use Rattle.hys_lin.specs.Operations.{plus, minus};
ghost use Rattle.hys_meaning.specs.Folding.{Computed, first_unfit, FormFits, numbers_of};
ghost use Rattle.hys_ast.specs.declared.place.Place.{Place};
ghost use Rattle.hys_ast.specs.Tree.{Tree, Source};
ghost use Rattle.hys_meaning.specs.Unfolded.{unfolded};
ghost use Rattle.hys_meaning.specs.Typed.{IsReal};
ghost use Rattle.hys_meaning.specs.Forms.{Form, form, guard_form, IsConstant};
ghost use Rattle.hys_meaning.specs.Names.{Name, names};
ghost use Rattle.hys_examples.specs.Ranges.{IsOrder, range_numbers, found};
ghost use Rattle.hys_examples.specs.RowNumbers.{row_numbers, columns, literal_of};
ghost use Rattle.hys_examples.specs.Fitting.{Fits, IsFirstUnfit, FitsOrNot, IsFitting, HaveFitting, IsGuard, RangeFits, EndsFit};
ghost use Rattle.hys_examples.specs.Trees.{number, name, place, somewhere, negated};
ghost use Rattle.hys_examples.specs.Sources.{ends_at, too_steep, too_wide, in_turn, guarded, switched, choosing, summed, halved, halved_far, long_twice, mixed, spread, graded, decided, thermostat, boxed_by, n_over, tolerance};
ghost use Rattle.hys_examples.specs.Worked.{tenths, twice_x, x_twice, half_x, x_less_two, at_most_five, at_least_five, equal_to_five, heating, one_of_two, written_at, operation_at, greatest, finest, one_too_large, too_small, near_then_far, far_then_near, d_then_z, twice_x_numbers, x_twice_numbers, half_x_numbers, x_less_two_numbers, at_most_five_numbers, at_least_five_numbers, equal_to_five_numbers, in_turn_ranges, spread_ranges, graded_ranges, guarded_rows, switched_rows_expected, mixed_rows_expected, decided_rows_expected, thermostat_columns, at_column, one_less_column};

/// A source has at most one order of definition. Where it has one, either all of its numbers fit, or
/// there is one that is the first not to fit.
pub fn one_or_none()
    ensures order { (s : Source) (a b : List (List ℕ)) → IsOrder s a → IsOrder s b → a ≡ b }
    ensures first { (t : Number) (s : Source) (c d : Computed) → IsFirstUnfit t s c → IsFirstUnfit t s d → c ≡ d }
    ensures not_both { (t : Number) (s : Source) (c : Computed) → Fits t s → ¬ (IsFirstUnfit t s c) }
    ensures either { (t : Number) (s : Source) (order : List (List ℕ)) → IsOrder (unfolded s) order → FitsOrNot t s }
{}

/// Where the values of parameters and the numbers of an expression fit, so do the factors and the
/// constant of its form, or of its guard number. So signs, names and casts need no numbers.
pub fn forms()
    ensures real { (ns : List Name) (e : Tree) → HaveFitting ns → IsReal ns e → IsFitting ns e → FormFits ns (form ns e) }
    ensures guard { (ns : List Name) (e : Tree) → IsGuard ns e → IsFitting ns e → FormFits ns (guard_form ns e) }
{}

/// Where the constant of a form and the numbers of its range fit, so do both ends of its interval.
pub fn ends()
    ensures fit { (p : Place) (ns : List Name) (f : Form) → IsTrue (fits f.constant) → RangeFits p ns f → EndsFit ns f }
{}

/// Literals up to 9223372036854775807 fit. Of one that doesn't, the literal is shown.
pub fn literals()
    ensures most { Fits tolerance (ends_at (codes "9223372036854775807")) }
    ensures least { Fits tolerance (ends_at (codes "1e-18")) }
    ensures long { IsFirstUnfit tolerance one_too_large (written_at (place 42 1 43) (whole 9223372036854775808)) }
    ensures small { IsFirstUnfit tolerance too_small (written_at (place 42 1 43) (n_over 1 10000000000000000000)) }
{}

/// Values of parameters come before bounds, whatever stands first.
pub fn values_first()
    ensures first { IsFirstUnfit tolerance long_twice (written_at (place 87 1 88) (whole 9223372036854775809)) }
{}

/// Sums are exact, and take name by name and then the constants.
pub fn sums()
    ensures fits { Fits tolerance (boxed_by tenths) }
    ensures form { ((form [] tenths).constant ≡ n_over 3 10) × IsConstant (form [] tenths) }
    ensures steep { IsFirstUnfit tolerance too_steep (operation_at (place 108 4 27) (plus greatest (whole 1))) }
{}

/// At an operator the names come in the order of declaration, here x and u, and then the constant.
pub fn operators()
    ensures left { numbers_of (names summed) twice_x ≡ twice_x_numbers }
    ensures right { numbers_of (names summed) x_twice ≡ x_twice_numbers }
    ensures quotient { numbers_of (names summed) half_x ≡ half_x_numbers }
    ensures difference { numbers_of (names summed) x_less_two ≡ x_less_two_numbers }
    ensures most { numbers_of (names summed) at_most_five ≡ at_most_five_numbers }
    ensures least { numbers_of (names summed) at_least_five ≡ at_least_five_numbers }
    ensures equal { numbers_of (names summed) equal_to_five ≡ equal_to_five_numbers }
{}

/// Where the expressions fit, the interval of a guard number may not. Intervals are found along the
/// order of definition, from those that are found before.
pub fn intervals()
    ensures wide { IsFirstUnfit tolerance too_wide (operation_at (place 106 3 1) (plus (whole 1) greatest)) }
    ensures order { IsOrder in_turn near_then_far ×
        ¬ (IsOrder in_turn far_then_near) }
    ensures numbers { range_numbers in_turn near_then_far ≡ in_turn_ranges (place 115 4 1) (place 101 3 1) }
    ensures fits { Fits tolerance in_turn }
{}

/// The interval of `z = { IF a THEN x - 3 ELSE 2*x }` is the least that holds both -3 to 7 and 0 to 20.
pub fn of_both_cases()
    ensures low { map (λ n. n.low) (found spread (codes "z" ∷ []) (names spread)) ≡
        whole 0 ∷ whole 0 ∷ neg (whole 3) ∷ [] }
    ensures high { map (λ n. n.high) (found spread (codes "z" ∷ []) (names spread)) ≡
        whole 10 ∷ whole 1 ∷ whole 20 ∷ [] }
    ensures numbers { range_numbers spread (codes "z" ∷ []) ≡ spread_ranges }
{}

/// The interval of `d = x >= 5` is 0 to 1, and so that of `z = 3*(REAL d)` is 0 to 3. The rows of z
/// have no numbers of their own.
pub fn of_a_boolean()
    ensures low { map (λ n. n.low) (found graded d_then_z (names graded)) ≡
        whole 0 ∷ whole 0 ∷ whole 0 ∷ [] }
    ensures high { map (λ n. n.high) (found graded d_then_z (names graded)) ≡
        whole 10 ∷ whole 3 ∷ whole 1 ∷ [] }
    ensures numbers { range_numbers graded d_then_z ≡ graded_ranges }
    ensures rows { row_numbers tolerance graded d_then_z ≡
        row_numbers tolerance guarded (codes "d" ∷ []) }
{}

/// The numbers of the rows of `d = x >= 5`: its number is 5 - x, from -5 to 5.
pub fn of_a_guard()
    ensures fits { Fits tolerance guarded }
    ensures numbers { row_numbers tolerance guarded (codes "d" ∷ []) ≡ guarded_rows }
{}

/// Where the intervals fit, the rows may not: 1/2 - x is from -19/2 to 1/2, and with a tolerance of
/// so large a denominator the difference doesn't fit. Over a box so large that the interval doesn't
/// fit either, that is shown.
pub fn of_a_fine_guard()
    ensures ranges { first_unfit (range_numbers halved (codes "d" ∷ [])) ≡ None }
    ensures first { IsFirstUnfit finest halved (operation_at somewhere (minus (neg (n_over 19 2)) finest)) }
    ensures fits { Fits tolerance halved }
    ensures before { IsFirstUnfit finest halved_far (operation_at somewhere (plus (n_over 1 2) (neg greatest))) }
{}

/// The numbers of the rows of `z = { IF a THEN 2*x }`, with 2*x from 0 to 20: of the differences of
/// the intervals, and of the two rows for 0 and the two for 2*x.
pub fn of_a_choice()
    ensures fits { Fits tolerance switched }
    ensures numbers { row_numbers tolerance switched (codes "z" ∷ []) ≡ switched_rows_expected }
{}

/// The numbers of the rows of `z = { IF ~a THEN x + (REAL a) ELSE 1 }`. The literal is 1 - a, and x + a
/// is from 0 to 11; in the rows for x + a its factor is joined with that of the literal.
pub fn of_a_negated_condition()
    ensures numbers { row_numbers tolerance mixed (codes "z" ∷ []) ≡ mixed_rows_expected }
{}

/// The numbers of the rows of `z = { IF p THEN x }`, where p is a parameter that is true: the literal
/// is 1 and has no column.
pub fn of_a_decided_condition()
    ensures numbers { row_numbers tolerance decided (codes "z" ∷ []) ≡ decided_rows_expected }
{}

/// The columns of the thermostat, of whose formula `&` has the first fresh one and `|` the second.
pub fn order_of_columns()
    ensures columns { columns thermostat ≡ thermostat_columns }
    ensures last { literal_of (columns thermostat) (names thermostat) 0 heating ≡ at_column 6 }
{}

/// The columns are x, a, b, one for the connective of `a <-> ~b`, and z. A formula's literal has the
/// column of its name or of its last connective, or is 1 less that of what it negates.
pub fn conditions()
    ensures connective { literal_of (columns choosing) (names choosing) 0 one_of_two ≡ at_column 3 }
    ensures negated { literal_of (columns choosing) (names choosing) 0 (negated (name (codes "b"))) ≡ one_less_column 2 }
    ensures twice { literal_of (columns choosing) (names choosing) 0 (negated (negated (name (codes "a")))) ≡ at_column 1 }
{}
