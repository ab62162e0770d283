//! Edits, whose types admit none that breaks the rules.
ghost use Rattle.std.specs.Prelude.{◌≡◌, true};
ghost use Rattle.edits.specs.Rules.{stamp_kept, parent_kept, covers};
ghost use Rattle.edits.specs.Clocks.{pairs_of};

use crate::clock::Clock;
use crate::id::Id;

/// Whether a child stands before or after its parent.
#[derive(Clone, Copy, PartialEq, Eq, Debug)]
pub enum Side {
    Left,
    Right,
}

/// What an inserted entry hangs under: the start of the document, which is no entry, or an entry.
// No `Option`: the start is a place in the document, and `None` is said of what is not there.
#[derive(Clone, Copy, PartialEq, Eq, Debug)]
pub enum Parent {
    Start,
    Entry(Id),
}

/// Which edit it is, and its maker's clock from just before it.
#[derive(Clone, Copy)]
pub struct Stamp {
    pub id: Id,
    pub clock: Clock,
    ghost kept: { stamp_kept id clock ≡ true },
}

/// Where an insertion hangs its entry.
#[derive(Clone, Copy)]
pub struct Placement {
    pub stamp: Stamp,
    pub parent: Parent,
    pub side: Side,
    ghost kept: { parent_kept (pairs_of stamp.clock) parent side ≡ true },
}

/// Which entry a deletion turns into a tombstone.
#[derive(Clone, Copy)]
pub struct Removal {
    pub stamp: Stamp,
    pub target: Id,
    ghost kept: { covers (pairs_of stamp.clock) target ≡ true },
}

/// One change of the document.
#[derive(Clone, Copy)]
pub enum Edit<E> {
    Insertion { placement: Placement, element: E },
    Deletion(Removal),
}
