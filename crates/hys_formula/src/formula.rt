/// The place of a name in declaration order.
pub type NameId = u32;

/// What joins two formulas. `a -> b` is `~a | b`, and `a <- b` is `a | ~b`.
#[derive(Clone, Copy, Debug, PartialEq, Eq)]
pub enum Connective {
    And,
    Or,
    Iff,
    Then,
    From,
}

/// A formula over Boolean names.
#[derive(Debug, Drop)]
pub enum Formula {
    Const(bool),
    Name(NameId),
    Not(Box<Formula>),
    Join(Connective, Box<Formula>, Box<Formula>),
}
