//! What holds of texts and of the sources that are read from them, as calls that do nothing.

ghost use Rattle.std.specs.Prelude.{◌≡◌, ℕ, ◌≤◌, List, length, map};
ghost use Rattle.std.specs.List.{AllByRecursion};
ghost use Rattle.hys_number.specs.Number.{Number};
ghost use Rattle.hys_ast.specs.Tree.{Source};
ghost use Rattle.hys_meaning.specs.Accepted.{Accepted};
ghost use Rattle.hys_meaning.specs.Weight.{weight};
ghost use Rattle.hys_type.specs.Checks.{HasSourceLiterals};
ghost use Rattle.hys_type.specs.DeclarationKeeping.{IsReadSource};
ghost use Rattle.hys_type.specs.Declaring.{IsDeclaration};
ghost use Rattle.hys_prog.specs.declared.program.Program.{Program};
ghost use Rattle.hys_compile.specs.Faults.{listed, named, words_of};
ghost use Rattle.hys_compile.specs.Text.{IsCompilable, EachReadSource, HasOneCause, HasNoCause};
ghost use Rattle.hys_compile.specs.Sources.{HaveSameRanges, IsProgramOf};

use hys_lex::laws as cuts;
use hys_parse::laws as trees;

/// Of a source that is read from a text each literal is read as what it is, and each declaration
/// stands in a section of declarations and has a word as its name. Its declarations and items stand as
/// they are written: values at parameters, bounds at real states and inputs, left names but at demands.
pub fn read_sources()
    ensures literals { EachReadSource HasSourceLiterals }
    ensures declarations { EachReadSource (λ s. AllByRecursion IsDeclaration s.decls) }
    ensures written { EachReadSource IsReadSource }
{}

/// All translations of a source have the same numbers of intervals along their orders, at whatever
/// tolerances, so that the first of them that doesn't fit is the source's.
pub fn same_range_numbers()
    ensures { (s : Source) (p q : Program) → IsProgramOf s p → IsProgramOf s q → HaveSameRanges p q }
{}

/// An accepted source has a weight of at most 4,200: each of its at most 200 names adds at most 1, and
/// each connective, unnamed guard and demand takes a node of its own, of which there are at most 4,000.
pub fn weights_are_small()
    ensures { (s : Source) → Accepted s → weight s ≤ 4200 }
{}

/// There are twenty faults, and each constant of the module `number` is the number of the fault
/// that it names, in the order of the list. No source has number 19 any more.
#[tactic(auto, unfolding(crate::specs::Faults::listed, crate::specs::Faults::named))]
pub fn list_faults()
    ensures faults { length listed ≡ 20 }
    ensures names { map (λ p. p.1) named ≡ listed }
    ensures numbers { map (λ p. words_of p.0) named ≡ listed }
{}

/// A text has at most one cause to be refused, where one circular list of its source is as good as
/// another, and one that can be compiled has none.
pub fn one_cause()
    ensures one { (tolerance : Number) (text : List ℕ) → HasOneCause tolerance text }
    ensures none { (tolerance : Number) (text : List ℕ) → IsCompilable tolerance text → HasNoCause tolerance text }
{
    cuts::one_cut();
    trees::one_tree();
    trees::one_fault();
}
