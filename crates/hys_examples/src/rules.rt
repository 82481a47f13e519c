//! Sources that a rule refuses, and their like that it doesn't.

ghost use Rattle.std.specs.Prelude.{◌≡◌, [], ◌∷◌, codes, List, true};
ghost use Rattle.hys_meaning.specs.Typed.{Typed, Bounded, DeclaredOnce, DefinedOnce, HaveValues};
ghost use Rattle.hys_examples.specs.Worked.{KeepsOtherRules, one_is_one, one_is_more};
ghost use Rattle.hys_meaning.specs.Circular.{Circular};
ghost use Rattle.hys_meaning.specs.Accepted.{Accepted, WithinLimits};
ghost use Rattle.hys_examples.specs.Sources.{guarded, always, led_round, led_to_itself, boxed, two_names, by_zero, of_two_kinds, doubled, declared_twice, without_value, without_box, with_items, shown, settled};
ghost use Rattle.hys_examples.specs.Long.{named, signed};
ghost use Rattle.hys_examples.specs.Trees.{name, number, truth, both, negated, item, must};
ghost use Rattle.hys_ast.specs.declared.tree.BinaryOp.TheVariants as binary;
ghost use Rattle.hys_ast.specs.declared.source.Section.TheVariants as section;

/// Definitions that lead back to themselves. Nothing else is wrong with them.
pub fn cycles()
    ensures two { Circular led_round (codes "d1" ∷ codes "d2" ∷ []) }
    ensures one { Circular led_to_itself (codes "d" ∷ []) }
    ensures refused { ¬ (Accepted led_round) × ¬ (Accepted led_to_itself) }
    ensures typed { KeepsOtherRules led_round }
{}

/// A box whose low end is above its high end, and one of a single number.
pub fn boxes()
    ensures empty { ¬ (Bounded (boxed (codes "2"))) }
    ensures single { Accepted (boxed (codes "3")) }
{}

/// A product of two names, a divisor 0, and a Boolean name in a sum.
pub fn expressions()
    ensures product { ¬ (Typed two_names) }
    ensures divisor { ¬ (Typed by_zero) }
    ensures kind { ¬ (Typed of_two_kinds) }
    ensures scaled { Accepted doubled }
{}

/// The guards are accepted.
pub fn guards()
    ensures five { Accepted guarded }
    ensures twenty { Accepted always }
{}

/// Each name is declared once, each parameter has a value, each real state a box, and each AUX,
/// STATE and OUTPUT name is defined once.
pub fn once()
    ensures right { DefinedOnce (with_items (settled ∷ shown ∷ [])) × Typed (with_items (settled ∷ shown ∷ [])) }
    ensures twice { ¬ (DeclaredOnce declared_twice) }
    ensures value { ¬ (HaveValues without_value) }
    ensures boxed { ¬ (Bounded without_box) }
    ensures missing { ¬ (DefinedOnce (with_items (shown ∷ []))) }
    ensures again { ¬ (DefinedOnce (with_items (settled ∷ shown ∷ settled ∷ []))) }
{}

/// Left names suit their sections, and what is at their right is of the right kind.
pub fn places()
    ensures section { ¬ (Typed (with_items (item section.Linear (codes "d") (number (codes "1")) ∷ shown ∷ []))) }
    ensures unknown { ¬ (Typed (with_items (item section.Logic (codes "e") (truth true) ∷ settled ∷ shown ∷ []))) }
    ensures output { ¬ (Typed (with_items (settled ∷ item section.OutputItem (codes "y") (name (codes "y")) ∷ []))) }
    ensures equation { ¬ (Typed (with_items (item section.Ad (codes "d") one_is_one ∷ shown ∷ []))) }
    ensures within { ¬ (Typed (with_items (item section.Logic (codes "d") one_is_more ∷ shown ∷ []))) }
    ensures top { Typed (with_items (settled ∷ shown ∷ must one_is_one ∷ [])) }
    ensures kind { ¬ (Typed (with_items (settled ∷ item section.OutputItem (codes "y") (truth true) ∷ []))) }
{}

/// 200 names, 1,000 nodes in one expression and 4,000 in all, and no more.
pub fn limits()
    ensures names { WithinLimits (named 200) × ¬ (WithinLimits (named 201)) }
    ensures expression { WithinLimits (signed 1 999) × ¬ (WithinLimits (signed 1 1000)) }
    ensures nodes { WithinLimits (signed 4 999) × ¬ (WithinLimits (signed 5 800)) }
{}
