//! Records.
use edits::{Clock, Id, Parent, Side};

// The fields are plain ones, no `Placement` or `Removal`: a caller may put any together, and `edit` answers for all.
// `offset` and `len` stand beside the bytes: where they lie in the input is promised, and a record knows no kind.
/// A record that was read. Its element bytes are the input's own, from `offset` on.
#[derive(Clone, Copy)]
pub enum Record<'a> {
    /// One insertion.
    Insertion {
        id: Id,
        clock: Clock,
        parent: Parent,
        side: Side,
        offset: usize,
        element: &'a [u8],
    },
    /// One deletion.
    Deletion {
        id: Id,
        clock: Clock,
        target: Id,
    },
    /// `len` insertions, of which the fields describe the first. Each next has the next number, is the right child of
    /// the one before it, and its clock counts that one besides.
    Run {
        id: Id,
        clock: Clock,
        parent: Parent,
        side: Side,
        len: u8,
        offset: usize,
        elements: &'a [u8],
    },
}
