use crate::place::Place;
use hys_base::Text;

#[derive(Clone, Copy, Debug, PartialEq, Eq)]
pub enum UnaryOp {
    /// `~` or `!`.
    Not,
    /// `-`.
    Neg,
    /// `+`.
    Plus,
}

#[derive(Clone, Copy, Debug, PartialEq, Eq)]
pub enum BinaryOp {
    Add,
    Sub,
    Mul,
    Div,
    And,
    Or,
    /// `<->`.
    Iff,
    /// `->`.
    Then,
    /// `<-`.
    From,
    /// `<=`.
    Most,
    /// `>=`.
    Least,
    /// `==`.
    Equal,
}

/// An expression. The place of an operator is that of its token, the place of a cast that of its
/// name.
#[derive(Debug, Drop)]
pub enum Expr {
    Number(Text, Place),
    Name(Text, Place),
    Truth(bool, Place),
    /// `(REAL name)`.
    Cast(Text, Place),
    Unary(UnaryOp, Box<Expr>, Place),
    Binary(BinaryOp, Box<Expr>, Box<Expr>, Place),
}
