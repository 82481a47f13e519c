//! What holds of the definitions, as calls that do nothing.

ghost use Rattle.std.specs.Prelude.{◌≡◌, List, [], ◌∷◌, Some, None, true, codes};
ghost use Rattle.hys_number.specs.Ops.{whole};
ghost use Rattle.hys_meaning.specs.Forms.{Form};
ghost use Rattle.hys_lin.specs.declared.lost.Op.{Op};
ghost use Rattle.hys_ast.specs.Tree as tree;
ghost use Rattle.hys_number.specs.Number.{Number};
ghost use Rattle.hys_ast.specs.Tree.{Source};
ghost use Rattle.hys_meaning.specs.Names.{Name};
ghost use Rattle.hys_meaning.specs.Unfolded.{unfolded};
ghost use Rattle.hys_type.specs.SameMeaning.{Translates, OfEachTranslation, HasOneTranslation, BecomesProgram, TextsAgain, PlacesAgain, StepsByPlaces, StepsByTexts, LegalByPlaces, LegalByTexts, CirclesByPlaces, ReadCirclesByTexts, ValuesByPlaces, ValuesByTexts};
ghost use Rattle.hys_type.specs.SmallProgram.{small, small_program, IsSmallJustWhere};
ghost use Rattle.hys_type.specs.RichProgram.{TranslatesRich};
ghost use Rattle.hys_formula.specs.declared.formula.Formula.{Formula};
ghost use Rattle.hys_type.specs.Checks.{fault_of};
ghost use Rattle.hys_type.specs.Examples.{spot, name, zero_at, ten_at, state, source, stepping, squared, truth_and_unknown, twice_declared, bounded_by_itself, of_an_output, twice_defined};
ghost use Rattle.hys_type.specs.declared.fault.TypeFault.TheVariants as fault;
ghost use Rattle.hys_type.specs.Dense.{FoldMatched, FoldLeft, FoldRight};

/// The operations of two dense forms are those of the forms that they stand for, name by name in
/// the order of declaration and then between the constants; in a product or a quotient the
/// constant side is spread over the names.
pub fn dense_operations()
    ensures matched { (ns : List Name) (o : Op) (f g : Form) → FoldMatched ns o f g }
    ensures left { (ns : List Name) (o : Op) (f g : Form) → FoldLeft ns o f g }
    ensures right { (ns : List Name) (o : Op) (f g : Form) → FoldRight ns o f g }
{}

/// The first faults of small sources, and of some that have two.
pub fn first_faults()
    ensures none { fault_of (stepping (name (codes "x") 6)) ≡ None }
    ensures unknown { fault_of (stepping (name (codes "z") 6)) ≡ Some (fault.Unknown (spot 6)) }
    ensures not_linear { fault_of (stepping squared) ≡ Some (fault.NotLinear (spot 7)) }
    ensures left_first { fault_of (stepping truth_and_unknown) ≡ Some (fault.Unknown (spot 8)) }
    ensures at_top { fault_of (stepping (tree.Truth true (spot 6))) ≡ Some (fault.Kind (spot 6)) }
    ensures twice { fault_of twice_declared ≡ Some (fault.Twice (spot 1)) }
    ensures missing { fault_of (source (state (zero_at 2) (ten_at 3) ∷ []) []) ≡ Some (fault.Missing (codes "x")) }
    ensures not_constant { fault_of bounded_by_itself ≡ Some (fault.Kind (spot 2)) }
    ensures an_output { fault_of of_an_output ≡ Some (fault.Kind (spot 6)) }
    ensures defined_twice { fault_of twice_defined ≡ Some (fault.DefinedTwice (spot 5)) }
{}

/// A program that is the translation of a source has its meaning: its steps and its legal steps are
/// those of the source, where an assignment gives a number to each declared name, in the source by
/// its text and in the program by its place. Going from one to the other and back keeps the number
/// of each declared name.
pub fn same_meaning()
    ensures texts_again { (s : Source) → TextsAgain s }
    ensures places_again { (s : Source) → PlacesAgain s }
    ensures steps_by_places { OfEachTranslation (λ tolerance s p. StepsByPlaces (unfolded s) p) }
    ensures steps_by_texts { OfEachTranslation (λ tolerance s p. StepsByTexts (unfolded s) p) }
    ensures legal_by_places { OfEachTranslation (λ tolerance s p. LegalByPlaces tolerance (unfolded s) p) }
    ensures legal_by_texts { OfEachTranslation (λ tolerance s p. LegalByTexts tolerance (unfolded s) p) }
{}

/// Under every assignment that has the values of the parameters each item of a translation says what the
/// item of its source says: the same number or truth, and a guard has its own tolerance.
pub fn same_values()
    ensures by_places { OfEachTranslation (λ tolerance s p. ValuesByPlaces tolerance (unfolded s) p) }
    ensures by_texts { OfEachTranslation (λ tolerance s p. ValuesByTexts tolerance (unfolded s) p) }
{}

/// A source has one translation at a tolerance: any two have the same names, the same items with the same
/// forms and formulas, and the same weight.
pub fn one_translation()
    ensures { (tolerance : Number) (s : Source) → HasOneTranslation tolerance s }
{}

/// The translation of a source that keeps the rules of typing is a program, where the declarations of the
/// source are as they are read from a text and the tolerance is above 0.
pub fn translations_are_programs()
    ensures { (tolerance : Number) (s : Source) → BecomesProgram tolerance s }
{}

/// The circular lists of definitions of a translation are those of its source, by places and by
/// texts: so a program has none exactly where its source has none.
pub fn same_circles()
    ensures by_places { OfEachTranslation (λ tolerance s p. CirclesByPlaces (unfolded s) p) }
    ensures by_texts { OfEachTranslation (λ tolerance s p. ReadCirclesByTexts s p) }
{}

/// A small program is the translation of a small source with an unnamed guard, parameters of both
/// kinds and both kinds of demands, just where its guard has the tolerance that is asked for and
/// the factor is the parameter's value. The source is typed.
pub fn small_translation()
    ensures typed { (tolerance : Number) → Translates tolerance small (small_program tolerance (whole 2)) }
    ensures only { (tolerance eps factor : Number) → IsSmallJustWhere tolerance eps factor }
{}

/// The program of a source with items of every kind, two unnamed guards among them: the formulas that have
/// the trees of its choice, of its next value and of its demand are all that it leaves open.
pub fn rich_translation()
    ensures { (tolerance : Number) (when next demand : Formula) → TranslatesRich tolerance when next demand }
{}
