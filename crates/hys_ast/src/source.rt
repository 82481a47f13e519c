use crate::place::Place;
use crate::tree::Expr;
use hys_base::{List, Text};

/// The section that a declaration or an item stands in. `OutputItem` is the OUTPUT of the
/// IMPLEMENTATION.
#[derive(Clone, Copy, Debug, PartialEq, Eq)]
pub enum Section {
    State,
    Input,
    Output,
    Parameter,
    Aux,
    Ad,
    Da,
    Logic,
    Linear,
    Automata,
    Continuous,
    OutputItem,
    Must,
}

#[derive(Clone, Copy, Debug, PartialEq, Eq)]
pub enum Kind {
    Real,
    Bool,
}

/// A declared name. `place` is that of the name.
#[derive(Debug, Drop)]
pub struct Decl {
    pub section: Section,
    pub kind: Kind,
    pub name: Text,
    pub place: Place,
    pub low: Option<Expr>,
    pub high: Option<Expr>,
    pub value: Option<Expr>,
}

/// What stands at the right of an item.
#[derive(Debug, Drop)]
pub enum Shape {
    Plain(Expr),
    /// A comparison in AD and its own tolerance.
    Wide(Expr, Expr),
    /// The condition, the THEN and the ELSE of a choice.
    Choice(Expr, Expr, Option<Expr>),
}

/// An item of a section. `place` is that of the name at its left, and in MUST that of its first
/// token.
#[derive(Debug, Drop)]
pub struct Item {
    pub section: Section,
    pub name: Option<Text>,
    pub place: Place,
    pub shape: Shape,
}

/// The tree of a source: its declarations and its items, each in the order of the text.
#[derive(Debug, Drop)]
pub struct Source {
    pub system: Text,
    pub decls: List<Decl>,
    pub items: List<Item>,
}
