//! The edits that wait for others, put on the shelf and taken off it.
ghost use Rattle.std.specs.Prelude.{◌≡◌, ◌+◌, ◌<◌, [], ◌∷◌, ◌++◌, IfSome, IfNone, IsSomeAnd, Some, None, vec_len, MatchResult, OnSome, nat_le, slice_get, remove, ◌≤◌, vec_capacity};
ghost use Rattle.edits.specs.declared.fault.Fault.TheVariants.{NoMemory};
ghost use Rattle.edits.specs.Edits.{stamp_of};
ghost use Rattle.replica.specs.Shelves.{waits, insertions, first_ready, lowest_from};

use crate::roster::Roster;
use edits::{Clock, Edit, Fault, Id};
use std::alloc::Global;

/// The most waiting edits that a replica can be made for.
pub(crate) const MOST_WAITING: usize = 64;

/// Accepted edits that are not ready, in the order in which they came.
// Shelf, Roster, Index, Reading and Tree are not one list with a limit: each has calls of its own, and what is alike is
// a line of invariant.
#[derive(Drop)]
pub struct Shelf<E: Copy> {
    pub(crate) room: usize,
    pub(crate) edits: Vec<Edit<E>>,
    ghost reserved: { room ≤ vec_capacity edits },
    ghost few: { vec_len edits ≤ room },
}

impl<E: Copy> Shelf<E> {
    /// An empty shelf with memory for as many edits as asked for.
    pub(crate) fn new(heap: Global, room: usize) -> Result<Shelf<E>, Fault>
        ensures { MatchResult result (λ x. (x.room ≡ room) × (x.edits.items ≡ [])) (λ f. f ≡ NoMemory) }
    {
        Ok(Shelf {
            room,
            edits: Vec::with_capacity(heap, room)?,
        })
    }

    /// Whether an edit with the identifier waits.
    pub(crate) fn holds(&self, id: Id) -> bool
        ensures { result ≡ waits id self.now.edits.items }
    {
        self.edits.iter().any(|edit| edit.stamp().id == id)
    }

    /// How many of the edits are insertions.
    pub(crate) fn insertions(&self) -> usize
        ensures { result ≡ insertions self.now.edits.items }
    {
        // A sum, which has no branch for each edit, where `filter` and `count` would have one.
        self.edits
            .iter()
            .map(|edit| usize::from(edit.is_insertion()))
            .sum()
    }

    /// Whether no further edit can wait.
    pub(crate) fn is_full(&self) -> bool
        ensures { result ≡ nat_le self.now.room (vec_len self.now.edits) }
    {
        self.edits.len() >= self.room
    }

    /// Puts an edit behind the others.
    pub(crate) fn put(&mut self, edit: Edit<E>)
        requires { vec_len self.old.edits < self.old.room }
        ensures items { self.new.edits.items ≡ self.old.edits.items ++ (edit ∷ []) }
        ensures room { self.new.room ≡ self.old.room }
    {
        self.edits.push_reserved(edit);
    }

    /// The place of the first edit that is ready.
    fn first_ready(&self, roster: &Roster) -> Option<usize>
        ensures { result ≡ first_ready roster.now.pairs.items self.now.edits.items }
    {
        self.edits
            .iter()
            .position(|edit| roster.includes(clock_of(edit)))
    }

    /// Takes the first edit that is ready off the shelf.
    pub(crate) fn take_ready(&mut self, roster: &Roster) -> Option<Edit<E>>
        ensures none { IfNone result ((first_ready roster.now.pairs.items self.old.edits.items ≡ None) × (self.new ≡ self.old)) }
        ensures taken { IfSome result (λ e. IsSomeAnd (first_ready roster.now.pairs.items self.old.edits.items) (λ k. (slice_get self.old.edits.items k ≡ Some e) × (self.new.edits.items ≡ remove self.old.edits.items k))) }
        ensures insertions { IfSome result (λ e. insertions (e ∷ self.new.edits.items) ≡ insertions self.old.edits.items) }
        ensures falls { OnSome result (vec_len self.new.edits + 1 ≡ vec_len self.old.edits) }
        ensures room { self.new.room ≡ self.old.room }
    {
        let place = self.first_ready(roster)?;
        Some(self.edits.remove(place))
    }

    /// The lowest identifier that waits.
    pub(crate) fn lowest(&self) -> Option<Id>
        ensures { result ≡ lowest_from None self.now.edits.items }
    {
        // Not by `min()`: the proof is of any function that answers the lower of two, as the definition takes it.
        self.edits
            .iter()
            .map(|edit| edit.stamp().id)
            .reduce(Id::min)
    }
}

/// The clock of an edit, itself: `stamp` would copy it, and it is looked at for each edit that waits, whenever one is
/// applied.
fn clock_of<E: Copy>(edit: &Edit<E>) -> &Clock
    ensures { result.now ≡ (stamp_of edit.now).clock }
{
    match edit {
        Edit::Insertion { placement, .. } => &placement.stamp.clock,
        Edit::Deletion(removal) => &removal.stamp.clock,
    }
}
