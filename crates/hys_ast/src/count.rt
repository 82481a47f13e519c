ghost use Rattle.std.specs.Prelude.{◌≡◌, List, [], ◌∷◌, ◌++◌, map};
ghost use Rattle.hys_ast.specs.Tree.{Tree};
ghost use Rattle.hys_ast.specs.Seen.{tree_of, maybe_tree_of, shape_of, decl_of, item_of, source_of};
ghost use Rattle.hys_ast.specs.Nodes.{nodes, capped, if_any, decl_expressions, shape_expressions, decls_expressions, items_expressions, expressions, IsCountOf};

use crate::source::{Decl, Item, Shape, Source};
use crate::tree::Expr;

/// How many nodes some expressions have in all, and the largest of them. A number that does not
/// fit is the greatest that does.
#[derive(Clone, Copy, Debug, PartialEq, Eq)]
pub struct NodeCount {
    pub total: u32,
    pub largest: u32,
}

fn nodes_of(whole: &Expr) -> u32
    ensures { result ≡ capped (nodes (tree_of whole.now)) }
{
    match whole {
        Expr::Number(_, _) | Expr::Name(_, _) | Expr::Truth(_, _) | Expr::Cast(_, _) => 1,
        Expr::Unary(_, a, _) => nodes_of(a).saturating_add(1),
        Expr::Binary(_, a, b, _) => nodes_of(a).saturating_add(nodes_of(b)).saturating_add(1),
    }
}

// One expression more.
fn with(count: NodeCount, whole: &Expr) -> NodeCount
    ensures { (es : List Tree) → IsCountOf es count → IsCountOf (es ++ tree_of whole.now ∷ []) result }
{
    let nodes = nodes_of(whole);
    NodeCount {
        total: count.total.saturating_add(nodes),
        largest: count.largest.max(nodes),
    }
}

fn with_any(count: NodeCount, whole: &Option<Expr>) -> NodeCount
    ensures { (es : List Tree) → IsCountOf es count → IsCountOf (es ++ if_any (maybe_tree_of whole.now)) result }
{
    match whole {
        None => count,
        Some(whole) => with(count, whole),
    }
}

fn with_decl(count: NodeCount, decl: &Decl) -> NodeCount
    ensures { (es : List Tree) → IsCountOf es count → IsCountOf (es ++ decl_expressions (decl_of decl.now)) result }
{
    let count = with_any(count, &decl.low);
    let count = with_any(count, &decl.high);
    with_any(count, &decl.value)
}

fn with_shape(count: NodeCount, shape: &Shape) -> NodeCount
    ensures { (es : List Tree) → IsCountOf es count → IsCountOf (es ++ shape_expressions (shape_of shape.now)) result }
{
    match shape {
        Shape::Plain(whole) => with(count, whole),
        Shape::Wide(comparison, tolerance) => with(with(count, comparison), tolerance),
        Shape::Choice(when, hit, other) => {
            let count = with(count, when);
            let count = with(count, hit);
            with_any(count, other)
        }
    }
}

fn with_decls(count: NodeCount, decls: &[Decl]) -> NodeCount
    ensures { (es : List Tree) → IsCountOf es count →
        IsCountOf (es ++ decls_expressions (map decl_of decls.now)) result }
{
    let mut sum = count;
    for decl in decls {
        sum = with_decl(sum, decl);
    }
    sum
}

fn with_items(count: NodeCount, items: &[Item]) -> NodeCount
    ensures { (es : List Tree) → IsCountOf es count →
        IsCountOf (es ++ items_expressions (map item_of items.now)) result }
{
    let mut sum = count;
    for item in items {
        sum = with_shape(sum, &item.shape);
    }
    sum
}

/// The nodes of a source's expressions: bounds, values, and the right sides of items, where a
/// condition, a THEN and an ELSE are three, and a comparison and its tolerance two.
pub fn count_nodes(source: &Source) -> NodeCount
    ensures { IsCountOf (expressions (source_of source.now)) result }
{
    let none = NodeCount {
        total: 0,
        largest: 0,
    };
    let declared = with_decls(none, source.decls.items());
    with_items(declared, source.items.items())
}
