use hys_base::{List, Text};
use hys_lin::{Affine, Interval, Row};

/// What a column stands for: a state, an input, a Boolean auxiliary or a real auxiliary.
#[derive(Clone, Copy, Debug, PartialEq, Eq)]
pub enum ColumnRole {
    State,
    Input,
    D,
    Z,
}

/// Whether a value is any number, or 0 or 1.
#[derive(Clone, Copy, Debug, PartialEq, Eq)]
pub enum Kind2 {
    Real,
    Bool,
}

/// A column with the box of its values.
#[derive(Clone, Debug, PartialEq, Eq, Drop)]
pub struct Column {
    pub name: Text,
    pub role: ColumnRole,
    pub kind: Kind2,
    pub bounds: Interval,
}

/// An output and the form, over the columns, that gives its value.
#[derive(Clone, Debug, PartialEq, Eq, Drop)]
pub struct Output {
    pub name: Text,
    pub kind: Kind2,
    pub form: Affine,
}

/// A mixed logical dynamical system.
///
/// The columns stand in the order of states, inputs, Boolean auxiliaries and real auxiliaries;
/// `next` has the form of each state's next value. No row is an equation, and each has a label that
/// tells which item it comes from and has no part in what the rows mean. The names of columns and
/// outputs differ. There are at most `weight` columns and at most five times as many rows.
/// The form is that of Bemporad and Morari, "Control of systems integrating logic, dynamics, and
/// constraints", Automatica 35 (1999), with the rows over all columns at once.
#[derive(Clone, Debug, PartialEq, Eq, Drop)]
pub struct System {
    pub name: Text,
    pub columns: List<Column>,
    pub next: List<Affine>,
    pub outputs: List<Output>,
    pub rows: List<Row>,
    pub labels: List<Text>,
    pub weight: u32,
}
