//! What a tree holds.
ghost use Rattle.std.specs.Prelude.{◌≡◌, ◌<◌, true, IfSome, vec_len};
ghost use Rattle.tree.specs.Entries.{entry_at, names};
ghost use Rattle.tree.specs.Lookups.{slot_of};

use crate::node::Entry;
use crate::tree::Tree;
use edits::Id;

impl<E: Copy> Tree<E> {
    /// How many entries it can have.
    pub fn slots(&self) -> usize
        ensures { result ≡ self.now.slots }
    {
        self.slots
    }

    /// How many entries there are, tombstones counted.
    pub fn len(&self) -> usize
        ensures { result ≡ vec_len self.now.nodes }
    {
        self.nodes.len()
    }

    /// The entry in a slot.
    pub fn entry(&self, slot: usize) -> Option<Entry<E>>
        ensures { result ≡ entry_at self.now.nodes.items slot }
    {
        self.nodes.get(slot).map(|node| node.entry)
    }

    /// The slot of an entry.
    pub fn slot_of(&self, id: Id) -> Option<usize>
        ensures value { result ≡ slot_of self.now id }
        ensures found { IfSome result (λ s. names id (entry_at self.now.nodes.items s) ≡ true) }
        ensures within { IfSome result (λ s. s < vec_len self.now.nodes) }
    {
        let slot = self.index.find(id)?;
        let entry = self.entry(slot)?;
        (entry.id == id).then_some(slot)
    }
}
