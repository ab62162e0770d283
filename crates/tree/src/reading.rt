//! The entries of a document in reading order: readings made, filled and asked.
ghost use Rattle.std.specs.Prelude.{◌≡◌, ℕ, ◌+◌, ◌<◌, ◌≤◌, List, [], ◌∷◌, ◌++◌, length, if◌then◌else◌, None, vec_len, MatchResult, slice_index_or, vec_capacity};
ghost use Rattle.std.specs.List.{count_by};
ghost use Rattle.std.specs.Iterator.{Drains, UpTo};
ghost use Rattle.tree.specs.Entries.{shown_at};
ghost use Rattle.edits.specs.declared.fault.Fault.TheVariants.{NoMemory};

use crate::node::Node;
use edits::Fault;
use std::alloc::Global;

/// The slots of a tree in reading order, and the index at which each is shown, with memory for as many as asked for.
// Slots by place, indexes by slot, and their count: three questions, each asked without a search. No list with a limit
// that others share: only a line of invariant is alike.
#[derive(Drop)]
pub struct Reading {
    pub(crate) most: usize,
    pub(crate) order: Vec<usize>,
    /// For each slot its index among the shown entries; none for a tombstone.
    pub(crate) indexes: Vec<Option<usize>>,
    pub(crate) shown: usize,
    ghost reserved: { most ≤ vec_capacity order },
    ghost held: { most ≤ vec_capacity indexes },
}

impl Reading {
    /// An empty reading with memory for as many entries as asked for.
    pub fn new(heap: Global, most: usize) -> Result<Reading, Fault>
        ensures { MatchResult result (λ x. (x.most ≡ most) × (x.order.items ≡ []) × (x.shown ≡ 0)) (λ f. f ≡ NoMemory) }
    {
        Ok(Reading {
            most,
            order: Vec::with_capacity(heap, most)?,
            indexes: Vec::with_capacity(heap, most)?,
            shown: 0,
        })
    }

    /// The slots in reading order, tombstones counted.
    pub fn order(&self) -> &[usize]
        ensures { result.now ≡ self.now.order.items }
    {
        &self.order
    }

    /// How many entries are shown.
    pub fn shown(&self) -> usize
        ensures { result ≡ self.now.shown }
    {
        self.shown
    }

    /// The index at which a slot is shown; none for a tombstone.
    pub fn index_of(&self, slot: usize) -> Option<usize>
        ensures { result ≡ slice_index_or self.now.indexes.items slot None }
    {
        self.indexes.get(slot).copied().flatten()
    }

    /// Forgets what was read, and is ready for as many entries.
    // Here and below, that the memory stays relates two states, which no invariant of the type can say.
    fn restart(&mut self, entries: usize)
        requires { entries ≤ self.old.most }
        ensures order { self.new.order.items ≡ [] }
        ensures indexes { vec_len self.new.indexes ≡ entries }
        ensures most { self.new.most ≡ self.old.most }
        ensures shown { self.new.shown ≡ 0 }
    {
        self.order.clear();
        self.indexes.clear();
        self.shown = 0;
        // Never refused: there is memory for as many.
        self.indexes.resize(entries, None).unwrap();
    }

    /// Lists slots in place of what was read before, each with whether its entry is shown.
    pub(crate) fn fill<E: Copy, I: Iterator<Item = usize> + Drop>(
        &mut self,
        nodes: &[Node<E>],
        slots: I,
    )
        requires room { length nodes.now ≤ self.old.most }
        requires can { I.can_next slots }
        requires few { UpTo (I.remaining slots) (length nodes.now) }
        ensures listed { (xs : List ℕ) × Drains I.next_gives slots xs × (self.new.order.items ≡ xs) × (self.new.shown ≡ count_by (shown_at nodes.now) xs) }
        ensures most { self.new.most ≡ self.old.most }
        ensures len { vec_len self.new.order ≤ length nodes.now }
        ensures indexes { vec_len self.new.indexes ≡ length nodes.now }
    {
        self.restart(nodes.len());
        for slot in slots {
            let shown = is_shown(nodes, slot);
            self.add(slot, shown);
        }
    }

    /// One slot more, behind those that were added. The index counts shown entries only.
    // A slot and a `bool`, no `Option`: it says whether an entry is shown, and not whether there is one.
    fn add(&mut self, at: usize, shown: bool)
        requires room { vec_len self.old.order < self.old.most }
        requires few { self.old.shown ≤ vec_len self.old.order }
        ensures order { self.new.order.items ≡ self.old.order.items ++ (at ∷ []) }
        ensures most { self.new.most ≡ self.old.most }
        ensures shown { self.new.shown ≡ self.old.shown + (if shown then 1 else 0) }
        ensures len { vec_len self.new.order ≡ vec_len self.old.order + 1 }
        ensures few { self.new.shown ≤ vec_len self.new.order }
        ensures indexes { vec_len self.new.indexes ≡ vec_len self.old.indexes }
    {
        self.order.push_reserved(at);
        if shown {
            if let Some(index) = self.indexes.get_mut(at) {
                *index = Some(self.shown);
            }
            self.shown += 1;
        }
    }
}

/// Whether the entry in a slot is shown; no other slot shows one.
fn is_shown<E: Copy>(nodes: &[Node<E>], slot: usize) -> bool
    ensures { result ≡ shown_at nodes.now slot }
{
    match nodes.get(slot) {
        Some(node) => node.entry.shown,
        None => false,
    }
}
