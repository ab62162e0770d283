//! A node of the tree.
use crate::link::Siblings;
use edits::Id;

/// An inserted element with its insertion's identifier.
#[derive(Clone, Copy)]
pub struct Entry<E> {
    pub id: Id,
    /// A tombstone keeps its element: `shown` says whether it is shown, and not whether there is one.
    pub element: E,
    pub shown: bool,
}

/// An entry and its links. A slot is an entry's place in the order of arrival, counted from 0.
// Slots and no boxes: memory for all nodes is asked for at the making, and nothing calls itself as deep as the document.
#[derive(Clone, Copy)]
pub struct Node<E> {
    pub entry: Entry<E>,
    pub siblings: Siblings,
    /// The first of the left children, the first of the right children, and the next sibling on the same side.
    pub left: Option<usize>,
    pub right: Option<usize>,
    pub next: Option<usize>,
}
