//! A tree in memory.
ghost use Rattle.std.specs.Prelude.{◌≡◌, ◌≤◌, vec_len, vec_capacity};

use crate::index::Index;
use crate::node::Node;

/// The most entries that a tree can be made for.
pub const MOST_SLOTS: usize = 65_536;

/// The entries of a document and how they hang under each other. Memory for all slots is asked for when it is made.
// No list with a limit that others share: only a line of invariant is alike.
#[derive(Drop)]
pub struct Tree<E: Copy> {
    pub(crate) slots: usize,
    pub(crate) nodes: Vec<Node<E>>,
    /// The first of the entries that hang under the start.
    pub(crate) first: Option<usize>,
    pub(crate) index: Index,
    ghost reserved: { slots ≤ vec_capacity nodes },
    ghost within: { vec_len nodes ≤ slots },
    ghost indexed: { vec_len index.places ≤ vec_len nodes },
    ghost even: { index.most ≡ slots },
    ghost few: { slots ≤ 65536 },
}
