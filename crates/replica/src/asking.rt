//! What a replica holds.
ghost use Rattle.std.specs.Prelude.{◌≡◌, ◌<◌, ◌≤◌, true, IfSome, None, MatchResult, OnOk, vec_len};
ghost use Rattle.edits.specs.declared.fault.Fault.TheVariants.{WrongSize};
ghost use Rattle.tree.specs.Entries.{entry_at, names};
ghost use Rattle.tree.specs.Lookups.{slot_of};
ghost use Rattle.replica.specs.Shelves.{lowest_from};
ghost use Rattle.replica.specs.Taking.{roster_of, shelf_of, entries_in};

use crate::replica::Replica;
use edits::{Fault, Id, Pair};
use tree::{Entry, Reading};

impl<E: Copy> Replica<E> {
    /// The lowest identifier that waits.
    pub fn lowest_waiting(&self) -> Option<Id>
        ensures { result ≡ lowest_from None (shelf_of self.now) }
    {
        self.shelf.lowest()
    }

    /// The editors and how many edits of each were applied; an editor whose edits all wait is listed with 0.
    pub fn counts(&self) -> &[Pair]
        ensures { result.now ≡ roster_of self.now }
    {
        self.roster.pairs()
    }

    /// How many entries there are, tombstones counted.
    pub fn entries(&self) -> usize
        ensures { result ≡ entries_in self.now }
    {
        self.tree.len()
    }

    /// The entry in a slot.
    pub fn entry(&self, slot: usize) -> Option<Entry<E>>
        ensures { result ≡ entry_at self.now.tree.nodes.items slot }
    {
        self.tree.entry(slot)
    }

    /// The slot of an identifier.
    pub fn slot_of(&self, id: Id) -> Option<usize>
        ensures value { result ≡ slot_of self.now.tree id }
        ensures found { IfSome result (λ s. names id (entry_at self.now.tree.nodes.items s) ≡ true) }
    {
        self.tree.slot_of(id)
    }

    /// Lists the entries in reading order. A reading with too little memory is the caller's fault, and stays as it is.
    // That the memory stays relates two states, which no invariant of the type can say.
    pub fn read(&self, reading: &mut Reading) -> Result<(), Fault>
        ensures most { reading.new.most ≡ reading.old.most }
        ensures indexes { OnOk result (vec_len reading.new.indexes ≡ entries_in self.now) }
        ensures answer { MatchResult result (λ _. entries_in self.now ≤ reading.old.most) (λ f. (f ≡ WrongSize) × (reading.old.most < entries_in self.now) × (reading.new ≡ reading.old)) }
    {
        self.tree.read(reading)
    }
}
