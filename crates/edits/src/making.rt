//! Edits made from their parts; a part that breaks a rule is the caller's fault.
ghost use Rattle.std.specs.Prelude.{◌≡◌, true, false, MatchResult};
ghost use Rattle.edits.specs.declared.fault.Fault.TheVariants.{OutsideLimits};
ghost use Rattle.edits.specs.Edits.{stamp_of, is_insertion};
ghost use Rattle.edits.specs.Pairs.{ascending, unused};
ghost use Rattle.edits.specs.Rules.{stamp_kept, own_kept, parent_kept, covers};
ghost use Rattle.edits.specs.Clocks.{pairs_of, clock_kept};

use crate::clock::{Clock, Pair};
use crate::edit::{Edit, Parent, Placement, Removal, Side, Stamp};
use crate::fault::Fault;
use crate::id::Id;

impl Stamp {
    /// The stamp of these parts.
    pub fn new(id: Id, clock: Clock) -> Result<Stamp, Fault>
        ensures { MatchResult result (λ x. (x.id ≡ id) × (x.clock ≡ clock)) (λ f. (f ≡ OutsideLimits) × (stamp_kept id clock ≡ false)) }
    {
        if stamp_kept(id, &clock) {
            Ok(Stamp { id, clock })
        } else {
            Err(Fault::OutsideLimits)
        }
    }
}

impl Placement {
    /// The placement of these parts.
    pub fn new(stamp: Stamp, parent: Parent, side: Side) -> Result<Placement, Fault>
        ensures { MatchResult result (λ x. (x.stamp ≡ stamp) × (x.parent ≡ parent) × (x.side ≡ side)) (λ f. (f ≡ OutsideLimits) × (parent_kept (pairs_of stamp.clock) parent side ≡ false)) }
    {
        if parent_kept(&stamp.clock, parent, side) {
            Ok(Placement {
                stamp,
                parent,
                side,
            })
        } else {
            Err(Fault::OutsideLimits)
        }
    }
}

impl Removal {
    /// The removal of these parts.
    pub fn new(stamp: Stamp, target: Id) -> Result<Removal, Fault>
        ensures { MatchResult result (λ x. (x.stamp ≡ stamp) × (x.target ≡ target)) (λ f. (f ≡ OutsideLimits) × (covers (pairs_of stamp.clock) target ≡ false)) }
    {
        if stamp.clock.covers(target) {
            Ok(Removal { stamp, target })
        } else {
            Err(Fault::OutsideLimits)
        }
    }
}

impl<E> Edit<E> {
    /// Which edit it is, and its maker's clock from just before it.
    pub fn stamp(&self) -> Stamp
        ensures { result ≡ stamp_of self.now }
    {
        match self {
            Edit::Insertion {
                placement,
                element: _,
            } => placement.stamp,
            Edit::Deletion(removal) => removal.stamp,
        }
    }

    /// Whether it inserts an entry.
    pub fn is_insertion(&self) -> bool
        ensures { result ≡ is_insertion self.now }
    {
        matches!(self, Edit::Insertion { .. })
    }
}

/// Whether the clock may be that of the edit.
fn stamp_kept(id: Id, clock: &Clock) -> bool
    ensures { result ≡ stamp_kept id clock.now }
{
    id.editor > 0 && id.number > 0 && clock_kept(clock) && own_kept(id, clock)
}

/// Whether the clock lists at most 16 editors, ascending, with counts of at least 1, and nothing behind them.
fn clock_kept(clock: &Clock) -> bool
    ensures { result ≡ clock_kept clock.now }
{
    match clock.pairs.split_at_checked(clock.len as usize) {
        Some((listed, rest)) => ascends(listed) && all_unused(rest),
        None => false,
    }
}

/// Whether the editors ascend from 1 on, and no count is 0.
fn ascends(pairs: &[Pair]) -> bool
    ensures { result ≡ ascending 0 pairs.now }
{
    pairs.iter().all(|p| p.editor > 0 && p.count > 0)
        && pairs.is_sorted_by(|p, q| p.editor < q.editor)
}

/// Whether every pair is unused.
fn all_unused(pairs: &[Pair]) -> bool
    ensures { result ≡ unused pairs.now }
{
    pairs.iter().all(|p| p.editor == 0 && p.count == 0)
}

/// Whether the clock counts the own editor's edits before this one, and names at most 16 editors with the own.
pub fn own_kept(id: Id, clock: &Clock) -> bool
    ensures { result ≡ own_kept id (pairs_of clock.now) }
{
    let before = id.number.saturating_sub(1);
    clock.count(id.editor) == before && (id.number > 1 || clock.listed().len() < 16)
}

/// Whether an insertion may hang under the parent on that side: under the start only on the right.
pub fn parent_kept(clock: &Clock, parent: Parent, side: Side) -> bool
    ensures { result ≡ parent_kept (pairs_of clock.now) parent side }
{
    match parent {
        Parent::Start => side == Side::Right,
        Parent::Entry(id) => clock.covers(id),
    }
}
