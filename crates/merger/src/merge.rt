//! A merge and its states.
ghost use Rattle.std.specs.Prelude.{◌≤◌, Bool, true, false};

use edits::Id;
use elements::Kind;
use replica::Replica;
use tree::Reading;

/// What a merge is ready for. The state is a part of the merge's type, and the calls that want one state ask for it: a
/// program that shows a merge still gathering, or gathers into a settled one, is not proved.
// The calls ask for it by a clause, and not by the type of `self`: a misuse is then a program that the prover refuses,
// and not one that has no meaning.
pub trait State {
    /// Whether the merge shows its table, and takes in no logs.
    ghost settled: { Bool };
}

/// The merge takes in logs.
#[derive(Clone, Copy)]
pub struct Gathering;

/// The merge shows its table.
#[derive(Clone, Copy)]
pub struct Settled;

impl State for Gathering {
    ghost settled = { false };
}

impl State for Settled {
    ghost settled = { true };
}

/// A merge of logs with elements of one kind: a replica without an editor, and, once settled, the order in which its
/// entries are read. The reading has memory for every slot.
#[derive(Drop)]
pub struct Merge<K: Kind, S> {
    pub(crate) replica: Replica<K>,
    pub(crate) reading: Reading,
    pub(crate) state: S,
    ghost sized: { replica.tree.slots ≤ reading.most },
}

/// A merge that is not settled, since edits still wait.
#[derive(Drop)]
pub struct Unsettled<K: Kind> {
    /// The merge as it was.
    pub merge: Merge<K, Gathering>,
    /// The lowest of the edits that wait.
    pub lowest: Id,
}
