use hys_ast::{Decl, Item, Section};

/// What was read of a source so far: the sections of the part that is read, the declarations and
/// the items.
#[derive(Debug, Drop)]
pub struct Draft {
    pub seen: Vec<Section>,
    pub decls: Vec<Decl>,
    pub items: Vec<Item>,
}

/// The part of a source that sections stand in.
#[derive(Clone, Copy, Debug, PartialEq, Eq)]
pub enum Part {
    Interface,
    Implementation,
}
