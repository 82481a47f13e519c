use hys_ast::{Kind, Place};
use hys_formula::{Formula, NameId};
use hys_frac::{Frac, List, Text};
use hys_lin::{Affine, Interval};

/// What a name is declared as.
#[derive(Clone, Copy, Debug, PartialEq, Eq)]
pub enum Role {
    State,
    Input,
    Output,
    Parameter,
    Aux,
}

/// A declared name. `bounds` matters for states and inputs and is 0 to 1 for a Bool; `value` is a
/// parameter's, 0 or 1 for a Bool.
#[derive(Clone, Debug, PartialEq, Eq, Drop)]
pub struct Name {
    pub text: Text,
    pub role: Role,
    pub kind: Kind,
    pub place: Place,
    pub bounds: Interval,
    pub value: Frac,
}

/// What an item says. The columns of its forms are names.
#[derive(Debug, Drop)]
pub enum Body {
    /// Whether the number is at most 0, with the tolerance of its gap.
    Guard {
        number: Affine,
        eps: Frac,
    },
    /// The first form where the formula is true, else the second.
    Choice {
        when: Formula,
        hit: Affine,
        other: Affine,
    },
    Logic(Formula),
    Linear(Affine),
    NextBool(Formula),
    NextReal(Affine),
    OutBool(Formula),
    OutReal(Affine),
    MustHold(Formula),
    /// The form is at most 0.
    MustMost(Affine),
    /// The form is 0.
    MustZero(Affine),
}

/// An item of a program; those that demand something have no name.
#[derive(Debug, Drop)]
pub struct ProgItem {
    pub name: Option<NameId>,
    pub place: Place,
    pub body: Body,
}

/// A program: its names in declaration order and its items in source order. Contracts state what
/// every program keeps by `IsProgram`.
#[derive(Debug, Drop)]
pub struct Program {
    pub system: Text,
    pub names: List<Name>,
    pub items: List<ProgItem>,
    pub weight: u32,
}

/// Each auxiliary name once, after all auxiliary names that its definition mentions.
#[derive(Clone, Debug, PartialEq, Eq, Drop)]
pub struct Order {
    pub names: List<NameId>,
}
