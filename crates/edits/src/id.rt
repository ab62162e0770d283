//! What names an edit.
ghost use Rattle.std.specs.Prelude.{◌≡◌, IfOk, Some, string_bytes};
ghost use Rattle.edits.specs.Ids.{precedes, same, id_text};

use std::alloc::{AllocError, Global};
use std::fmt;

/// The identifier of an edit, and of the entry that an insertion makes. `2.1` is the first edit of editor 2.
/// Editors are numbered from 1 to 255, the edits of one editor from 1 to 65,535, insertions and deletions together.
#[derive(Clone, Copy, PartialEq, Eq, PartialOrd, Ord, Debug)]
pub struct Id {
    pub editor: u8,
    pub number: u16,
}

// The derived comparisons and `Display` say the same; the names are there for callers.
impl Id {
    /// Whether it stands before the other: by editor, then by number.
    pub fn precedes(self, other: Id) -> bool
        ensures { result ≡ precedes self other }
    {
        self < other
    }

    /// Whether both name one edit.
    pub fn is(self, other: Id) -> bool
        ensures { result ≡ same self other }
    {
        self == other
    }

    /// The identifier as it is printed, `2.1`.
    pub fn text(self, heap: Global) -> Result<String, AllocError>
        ensures { IfOk result (λ s. string_bytes s ≡ id_text self) }
    {
        self.to_string(heap)
    }
}

impl fmt::Display for Id {
    ghost output = { λ x. Some (id_text x) };

    fn fmt<W: fmt::Write>(&self, f: &mut fmt::Formatter<W>) -> fmt::Result {
        write!(f, "{}.{}", self.editor, self.number)
    }
}
