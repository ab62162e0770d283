//! Where entries hang, and the links between them.
use edits::Side;

/// The entries that hang under one parent on one side.
#[derive(Clone, Copy)]
pub struct Siblings {
    /// The slot of the parent entry. The start has no slot.
    pub parent: Option<usize>,
    pub side: Side,
}

/// A link of the tree, by where it is kept, and not by where it leads.
#[derive(Clone, Copy)]
pub enum Link {
    /// To the first of the entries that hang under the start.
    First,
    /// Of a slot: to its first left child, to its first right child, to its next sibling.
    Left(usize),
    Right(usize),
    Next(usize),
}
