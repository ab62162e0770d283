//! The entries in reading order, found by links: no stack, no recursion. No walk takes more steps than there are
//! entries, which ends it whatever the links are.
ghost use Rattle.std.specs.Prelude.{◌≡◌, ◌<◌, ◌≤◌, None, vec_len, MatchResult, OnOk};
ghost use Rattle.edits.specs.declared.fault.Fault.TheVariants.{WrongSize};

use crate::link::Link;
use crate::reading::Reading;
use crate::tree::Tree;
use edits::{Fault, Side};
use std::iter::successors;

impl<E: Copy> Tree<E> {
    /// The slot at the end of the left links: what is read first of an entry and all below it. The order is not yet a
    /// promise.
    fn leftmost(&self, slot: usize) -> usize {
        successors(Some(slot), |at| self.follow(Link::Left(*at)))
            .take(self.nodes.len())
            .last()
            .unwrap_or(slot)
    }

    /// The slot that is read after a slot: the first of its right children, or else of its next sibling, or else its
    /// parent if it is a left child, or else what follows the parent likewise. The order is not yet a promise.
    fn after(&self, slot: usize) -> Option<usize>
        ensures { vec_len self.now.nodes ≤ slot → result ≡ None }
    {
        if let Some(right) = self.follow(Link::Right(slot)) {
            return Some(self.leftmost(right));
        }
        let node = successors(self.nodes.get(slot), |node| {
            self.nodes.get(node.siblings.parent?)
        })
        .take(self.nodes.len())
        .find(|node| node.next.is_some() || node.siblings.side == Side::Left)?;
        match node.next {
            Some(next) => Some(self.leftmost(next)),
            None => node.siblings.parent,
        }
    }

    /// Lists the entries in reading order. A reading with too little memory is the caller's fault, and stays as it is.
    // That the memory stays relates two states, which no invariant of the type can say.
    pub fn read(&self, reading: &mut Reading) -> Result<(), Fault>
        ensures answer { MatchResult result (λ _. vec_len self.now.nodes ≤ reading.old.most) (λ f. (f ≡ WrongSize) × (reading.old.most < vec_len self.now.nodes) × (reading.new ≡ reading.old)) }
        ensures most { reading.new.most ≡ reading.old.most }
        ensures len { OnOk result (vec_len reading.new.order ≤ vec_len self.now.nodes) }
        ensures indexes { OnOk result (vec_len reading.new.indexes ≡ vec_len self.now.nodes) }
    {
        let entries = self.nodes.len();
        if entries > reading.most {
            return Err(Fault::WrongSize);
        }
        let first = self.first.map(|slot| self.leftmost(slot));
        reading.fill(
            &self.nodes,
            successors(first, |at| self.after(*at)).take(entries),
        );
        Ok(())
    }
}
