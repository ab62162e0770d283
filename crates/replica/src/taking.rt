//! Edits taken in.
ghost use Rattle.std.specs.Prelude.{◌≡◌, ◌+◌, ◌<◌, ◌≤◌, true, ◌&&◌, [], ◌∷◌, None, if◌then◌else◌, vec_len, MatchResult};
ghost use Rattle.edits.specs.declared.fault.Fault.TheVariants.{NoMemory, OutsideLimits};
ghost use Rattle.edits.specs.Edits.{stamp_of};
ghost use Rattle.tree.specs.Entries.{slots_allowed};
ghost use Rattle.replica.specs.Rosters.{advanced};
ghost use Rattle.replica.specs.Shelves.{room_allowed, insertions, first_ready};
ghost use Rattle.replica.specs.Taking.{roster_of, shelf_of, entries_in, known, crowded, slotless, verdict, Fits, Answered};

use crate::replica::{Replica, Taken};
use crate::roster::Roster;
use crate::shelf::{MOST_WAITING, Shelf};
use crate::verdict::Verdict;
use edits::{Edit, Fault, Id};
use std::alloc::Global;
use tree::Tree;

impl<E: Copy> Replica<E> {
    /// An empty replica without an editor, with memory for as many entries (1 to 65,536) and as many waiting edits (1 to
    /// 64) as asked for.
    pub fn new(heap: Global, slots: usize, room: usize) -> Result<Replica<E>, Fault>
        ensures { MatchResult result (λ x. (x.tree.slots ≡ slots) × (x.shelf.room ≡ room) × (entries_in x ≡ 0) × (shelf_of x ≡ []) × (roster_of x ≡ []) × ((slots_allowed slots && room_allowed room) ≡ true)) (λ f. f ≡ (if slots_allowed slots && room_allowed room then NoMemory else OutsideLimits)) }
    {
        // Tested before any memory is asked for; the slots are, too, by the tree.
        if !(1..=MOST_WAITING).contains(&room) {
            return Err(Fault::OutsideLimits);
        }
        Ok(Replica {
            tree: Tree::new(heap, slots)?,
            shelf: Shelf::new(heap, room)?,
            roster: Roster::new(heap)?,
        })
    }

    /// Takes an edit in. It is tested in turn whether it is known, whether its editor finds a place, whether an
    /// insertion finds a slot, and, unless it is ready, whether it finds a place on the shelf.
    // That the slots stay is said here, of `apply` and of `release`: it relates two states, which no type can do.
    pub fn take_in(&mut self, edit: &Edit<E>) -> Result<Taken, Fault>
        ensures slots { self.new.tree.slots ≡ self.old.tree.slots }
        ensures answer { Answered edit.now self.old self.new result (verdict self.old edit.now) }
    {
        match self.judge(edit)? {
            Verdict::Knows => Ok(Taken::Known),
            Verdict::Applies => {
                self.roster.admit(edit.stamp().id.editor);
                self.apply(edit);
                Ok(Taken::Applied(self.release() + 1))
            }
            Verdict::Shelves => {
                self.roster.admit(edit.stamp().id.editor);
                self.shelf.put(*edit);
                Ok(Taken::Applied(0))
            }
        }
    }

    /// What becomes of the edit, or the test that refuses it.
    fn judge(&self, edit: &Edit<E>) -> Result<Verdict, Fault>
        ensures value { result ≡ verdict self.now edit.now }
        ensures fits { Fits self.now edit.now result }
    {
        let id = edit.stamp().id;
        if self.knows(id) {
            Ok(Verdict::Knows)
        } else if self.is_crowded(id) {
            Err(Fault::RosterFull(id))
        } else if self.is_slotless(edit) {
            Err(Fault::SlotsFull(id))
        } else if self.roster.includes(&edit.stamp().clock) {
            Ok(Verdict::Applies)
        } else if self.shelf.is_full() {
            Err(Fault::ShelfFull(id))
        } else {
            Ok(Verdict::Shelves)
        }
    }

    /// Whether the edit was applied or waits.
    fn knows(&self, id: Id) -> bool
        ensures { result ≡ known self.now id }
    {
        self.roster.covers(id) || self.shelf.holds(id)
    }

    /// Whether the edit's editor is new and finds no place.
    fn is_crowded(&self, id: Id) -> bool
        ensures { result ≡ crowded self.now id }
    {
        self.roster.is_full() && !self.roster.lists(id.editor)
    }

    /// Whether the edit is an insertion for which no slot is left, those counted that are kept for waiting insertions.
    fn is_slotless(&self, edit: &Edit<E>) -> bool
        ensures { result ≡ slotless self.now edit.now }
    {
        edit.is_insertion() && self.entries() + self.shelf.insertions() >= self.tree.slots()
    }

    /// Applies an edit. One whose parent or target is no entry only counts.
    fn apply(&mut self, edit: &Edit<E>)
        requires { entries_in self.old + insertions (edit.now ∷ shelf_of self.old) ≤ self.old.tree.slots }
        ensures slots { self.new.tree.slots ≡ self.old.tree.slots }
        ensures shelf { self.new.shelf ≡ self.old.shelf }
        ensures roster { roster_of self.new ≡ advanced (stamp_of edit.now).id (roster_of self.old) }
    {
        match edit {
            Edit::Insertion { placement, element } => {
                // Never refused: a slot is kept for it.
                self.tree
                    .insert(
                        placement.stamp.id,
                        placement.parent,
                        placement.side,
                        *element,
                    )
                    .unwrap();
            }
            Edit::Deletion(removal) => {
                self.tree.delete(removal.target);
            }
        }
        self.roster.advance(edit.stamp().id);
    }

    /// Applies waiting edits that are ready until none is, and answers how many.
    fn release(&mut self) -> usize
        ensures slots { self.new.tree.slots ≡ self.old.tree.slots }
        ensures count { result + vec_len self.new.shelf.edits ≡ vec_len self.old.shelf.edits }
        ensures none { first_ready (roster_of self.new) (shelf_of self.new) ≡ None }
    {
        let mut released = 0;
        while let Some(edit) = self.shelf.take_ready(&self.roster) {
            self.apply(&edit);
            // Counted by hand: a chain whose closure changes the replica would tell nothing of it.
            released += 1;
        }
        released
    }
}
