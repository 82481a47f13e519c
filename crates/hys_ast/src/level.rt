ghost use Rattle.std.specs.Prelude.{◌≡◌};
ghost use Rattle.hys_ast.specs.Operators.{level_of, groups};

use crate::tree::BinaryOp;

/// How tightly the operators of an expression bind, the loosest first.
#[derive(Clone, Copy, Debug, PartialEq, Eq)]
pub enum Level {
    /// `<->`, `->` and `<-`, one at most.
    Arrow,
    /// `|`.
    Or,
    /// `&`.
    And,
    /// `<=`, `>=` and `==`, one at most.
    Compare,
    /// `+` and `-`.
    Sum,
    /// `*` and `/`.
    Term,
}

impl BinaryOp {
    /// The level that the operator stands at.
    pub fn level(self) -> Level
        ensures { result ≡ level_of self }
    {
        match self {
            BinaryOp::Add | BinaryOp::Sub => Level::Sum,
            BinaryOp::Mul | BinaryOp::Div => Level::Term,
            BinaryOp::And => Level::And,
            BinaryOp::Or => Level::Or,
            BinaryOp::Iff | BinaryOp::Then | BinaryOp::From => Level::Arrow,
            BinaryOp::Most | BinaryOp::Least | BinaryOp::Equal => Level::Compare,
        }
    }
}

impl Level {
    /// Whether any number of the level's operators may stand side by side: they group to the left.
    pub fn groups(self) -> bool
        ensures { result ≡ groups self }
    {
        match self {
            Level::Arrow | Level::Compare => false,
            Level::Or | Level::And | Level::Sum | Level::Term => true,
        }
    }
}
