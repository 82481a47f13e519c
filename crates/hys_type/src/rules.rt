//! What the checks of a source and the rules of the language have to do with each other, as calls
//! that do nothing.

ghost use Rattle.std.specs.Prelude.{◌≡◌, ◌↔◌, List, ◌+◌, ◌<◌, ◌^◌, length, Some, None};
ghost use Rattle.hys_number.specs.Ops.{whole};
ghost use Rattle.std.specs.List.{AllByRecursion};
ghost use Rattle.hys_ast.specs.Tree.{Decl, Source};
ghost use Rattle.hys_meaning.specs.Names.{Name};
ghost use Rattle.hys_meaning.specs.Folding.{first_unfit, folded};
ghost use Rattle.hys_meaning.specs.Unfolded.{guards};
ghost use Rattle.hys_type.specs.Checks.{fault_of};
ghost use Rattle.hys_type.specs.Written.{SameNames, AreKnown, AreAmong, IsReadDecl, GoTogether};
ghost use Rattle.hys_type.specs.DeclarationKeeping.{IsReadSource, KeepsItsRules};
ghost use Rattle.hys_type.specs.CheckRules.{ConstantRule, KindRule, GuardRule, DemandRule, DeclarationRule, ItemRule, TypingRule};
ghost use Rattle.hys_type.specs.declared.constant.Known.{Known};
ghost use Rattle.hys_type.specs.Examples.{spot, zero_at, stepping};
ghost use Rattle.hys_type.specs.TwoFaults.{x_at, guarding, unknown_in_guard, no_tolerance, product_in_guard, misplaced, defined_again, empty_box_and_no_value, empty_box_and_unknown, truth_as_low_end, compared_constants, guard_in_sum, beyond_the_largest, by_no_term, by_zero_and_unknown};
ghost use Rattle.hys_type.specs.declared.fault.TypeFault.TheVariants as fault;

/// The first of two faults: names before values before boxes before items before names that are
/// missing; at an item its left name, then its expressions in the order of the text, a tolerance
/// behind its comparison; in an expression operands before operators, and at a node kind before
/// linearity before divisors before range.
pub fn fault_orders()
    ensures comparison_first { fault_of unknown_in_guard ≡ Some (fault.Unknown (spot 52)) }
    ensures tolerance_next { fault_of no_tolerance ≡ Some (fault.Tolerance (spot 50) (whole 0)) }
    ensures product_first { fault_of product_in_guard ≡ Some (fault.NotLinear (spot 51)) }
    ensures no_comparison { fault_of (guarding (x_at 52) (zero_at 54)) ≡ Some (fault.Kind (spot 52)) }
    ensures section_first { fault_of misplaced ≡ Some (fault.WrongSection (spot 60)) }
    ensures left_name_first { fault_of defined_again ≡ Some (fault.DefinedTwice (spot 5)) }
    ensures values_first { fault_of empty_box_and_no_value ≡ Some (fault.NoValue (spot 40)) }
    ensures boxes_first { fault_of empty_box_and_unknown ≡ Some (fault.EmptyBounds (spot 1) (whole 10) (whole 0)) }
    ensures low_end_first { fault_of truth_as_low_end ≡ Some (fault.Kind (spot 2)) }
    ensures kind_of_constants { fault_of compared_constants ≡ Some (fault.Kind (spot 41)) }
    ensures guard_number_first { fault_of (stepping guard_in_sum) ≡ Some beyond_the_largest }
    ensures divisor_of_no_term { fault_of (stepping by_no_term) ≡ Some (fault.ZeroDivisor (spot 6)) }
    ensures left_operand_first { fault_of (stepping by_zero_and_unknown) ≡ Some (fault.ZeroDivisor (spot 7)) }
{}

/// The checks of an expression pass exactly where the expression is what its place wants, once each
/// of its guards has a name, each of its guards compares two real expressions, and its numbers fit.
pub fn expression_rules()
    ensures constants { (ks : List Known) (ps ns : List Name) →
        AreKnown ks ps → AreAmong ps ns → ConstantRule ks ps ns }
    ensures kinds { (ns ms : List Name) → SameNames ns ms → KindRule ns ms }
    ensures guards { (ns ms : List Name) → SameNames ns ms → GuardRule ns ms }
    ensures demands { (ns ms : List Name) → SameNames ns ms → DemandRule ns ms }
{}

/// The checks of declarations pass exactly where the names differ and are at most 200, each
/// parameter has a value of its kind, each real state and input has a box that isn't empty, and the
/// numbers of values and boxes fit.
pub fn declaration_rules()
    ensures { (ds : List Decl) → AllByRecursion IsReadDecl ds → DeclarationRule ds }
{}

/// The checks of items pass exactly where no item defines a name that one before it defines, each
/// item is typed once its unnamed guards have names, so are the items of those guards, and the
/// numbers of all expressions fit.
pub fn item_rules()
    ensures { (ns ms : List Name) (ks : List Known) → GoTogether ns ms ks → ItemRule ns ms ks }
{}

/// A source that is read from a text has no fault exactly where it keeps its rules and each number
/// of its expressions fits.
pub fn rules_hold()
    ensures { (s : Source) → IsReadSource s →
        (fault_of s ≡ None) ↔ (KeepsItsRules s × (first_unfit (folded s) ≡ None)) }
{}

/// A source that is read from a text has no fault exactly where its unfolded one keeps the rules of
/// typing, at most 200 names are declared, and each number of its expressions fits. Its unnamed
/// guards are so few that their numbers fit 64 bits, so that no two have the same name.
pub fn typing_holds()
    ensures { (s : Source) → IsReadSource s → 1 + length (guards s) < 2 ^ 64 → TypingRule s }
{}
