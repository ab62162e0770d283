//! The memory of a replica.
ghost use Rattle.std.specs.Prelude.{◌+◌, ◌≤◌, vec_len};
ghost use Rattle.replica.specs.Shelves.{insertions};

use crate::roster::Roster;
use crate::shelf::Shelf;
use tree::Tree;

/// A copy of the document: its entries, the edits that wait, and the editors that it has accepted edits of. Each waiting
/// insertion has a slot kept for it.
#[derive(Drop)]
pub struct Replica<E: Copy> {
    pub(crate) tree: Tree<E>,
    pub(crate) shelf: Shelf<E>,
    pub(crate) roster: Roster,
    ghost kept: { vec_len tree.nodes + insertions shelf.edits.items ≤ tree.slots },
}

/// The answer to an edit that is taken in.
// No `Option<usize>`: a `None` would not say what became of the edit, and 0 is a count: nothing was applied yet.
#[derive(Clone, Copy, PartialEq, Eq, Debug)]
pub enum Taken {
    /// It was applied before, or waits already.
    Known,
    /// How many edits this call applied: none if the edit waits now, and with it those that waited for it.
    Applied(usize),
}
