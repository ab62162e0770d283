//! Entries hung under each other and turned into tombstones.
ghost use Rattle.std.specs.Prelude.{◌≡◌, ℕ, ◌+◌, ◌<◌, ◌≤◌, ◌≢◌, true, [], ◌∷◌, ◌++◌, if◌then◌else◌, IfSome, vec_len, MatchBool, MatchResult};
ghost use Rattle.edits.specs.declared.fault.Fault.TheVariants.{NoMemory, OutsideLimits, SlotsFull};
ghost use Rattle.tree.specs.Links.{IsParentSlot};
ghost use Rattle.tree.specs.Entries.{slots_allowed, entries_of, entry_at, names, shown_entry, hidden_at};

use crate::index::Index;
use crate::link::Siblings;
use crate::node::{Entry, Node};
use crate::tree::{MOST_SLOTS, Tree};
use edits::{Fault, Id, Parent, Side};
use std::alloc::Global;

impl<E: Copy> Tree<E> {
    /// An empty tree with memory for as many entries as there are slots, 1 to 65,536 of them.
    pub fn new(heap: Global, slots: usize) -> Result<Tree<E>, Fault>
        ensures { MatchResult result (λ t. (t.slots ≡ slots) × (t.nodes.items ≡ []) × (slots_allowed slots ≡ true)) (λ f. f ≡ (if slots_allowed slots then NoMemory else OutsideLimits)) }
    {
        if !(1..=MOST_SLOTS).contains(&slots) {
            return Err(Fault::OutsideLimits);
        }
        Ok(Tree {
            slots,
            nodes: Vec::with_capacity(heap, slots)?,
            first: None,
            index: Index::new(heap, slots)?,
        })
    }

    /// Hangs a new entry under its parent on its side. Where the parent is no entry, nothing changes.
    // That the slots stay as many is said here, of `delete` and of `set`: it relates two states, which no type can do.
    #[tactic(auto, using(crate::proofs::Entries::entries_gain))]
    pub fn insert(&mut self, id: Id, parent: Parent, side: Side, element: E) -> Result<bool, Fault>
        ensures slots { self.new.slots ≡ self.old.slots }
        ensures entries { MatchResult result (λ placed. entries_of self.new.nodes.items ≡ (if placed then entries_of self.old.nodes.items ++ (shown_entry id element ∷ []) else entries_of self.old.nodes.items)) (λ f. (f ≡ SlotsFull id) × (vec_len self.old.nodes ≡ self.old.slots) × (self.new.nodes.items ≡ self.old.nodes.items)) }
        ensures len { MatchResult result (λ placed. vec_len self.new.nodes ≡ vec_len self.old.nodes + (if placed then 1 else 0)) (λ _. vec_len self.new.nodes ≡ vec_len self.old.nodes) }
    {
        let Some(siblings) = self.siblings(parent, side) else {
            return Ok(false);
        };
        let slot = self.nodes.len();
        if slot >= self.slots {
            return Err(Fault::SlotsFull(id));
        }
        let link = self.gap(siblings, id);
        let next = self.follow(link);
        self.index.add(id, slot);
        self.nodes.push_reserved(Node {
            entry: Entry {
                id,
                element,
                shown: true,
            },
            siblings,
            left: None,
            right: None,
            next,
        });
        self.set(link, slot);
        Ok(true)
    }

    /// Turns an entry into a tombstone. Where the target is no entry, nothing changes.
    #[tactic(auto, using(crate::proofs::Entries::entries_hidden, std::proofs::lemmas::List::get_or_default))]
    pub fn delete(&mut self, target: Id) -> bool
        ensures slots { self.new.slots ≡ self.old.slots }
        ensures len { vec_len self.new.nodes ≡ vec_len self.old.nodes }
        ensures entries { MatchBool result ((s : ℕ) × (names target (entry_at self.old.nodes.items s) ≡ true) × (entries_of self.new.nodes.items ≡ hidden_at s (entries_of self.old.nodes.items))) (entries_of self.new.nodes.items ≡ entries_of self.old.nodes.items) }
    {
        let Some(slot) = self.slot_of(target) else {
            return false;
        };
        self.nodes[slot].entry.shown = false;
        true
    }

    /// The entries under a parent on a side; none where the parent is no entry.
    fn siblings(&self, parent: Parent, side: Side) -> Option<Siblings>
        ensures parent { IfSome result (λ s. IsParentSlot self.now.nodes.items parent s.parent) }
        ensures side { IfSome result (λ s. s.side ≡ side) }
    {
        let parent = match parent {
            Parent::Start => None,
            Parent::Entry(above) => Some(self.slot_of(above)?),
        };
        Some(Siblings { parent, side })
    }
}
