//! Links followed and set.
ghost use Rattle.std.specs.Prelude.{◌≡◌, ◌≢◌, Some, vec_len};
ghost use Rattle.tree.specs.declared.link.Link.{Link};
ghost use Rattle.tree.specs.Entries.{entries_of};
ghost use Rattle.tree.specs.Links.{IsLinkOf, first_link, target};

use crate::link::{Link, Siblings};
use crate::tree::Tree;
use edits::{Id, Side};
use std::iter::successors;

impl Siblings {
    /// The link to the first of them.
    pub(crate) fn first(self) -> Link
        ensures { result ≡ first_link self.parent self.side }
    {
        match (self.parent, self.side) {
            (None, _) => Link::First,
            (Some(slot), Side::Left) => Link::Left(slot),
            (Some(slot), Side::Right) => Link::Right(slot),
        }
    }
}

impl<E: Copy> Tree<E> {
    /// The link where an identifier belongs among its siblings, which stand in ascending order. That it is the gap is not
    /// yet a promise.
    pub(crate) fn gap(&self, siblings: Siblings, id: Id) -> Link
        ensures { IsLinkOf (vec_len self.now.nodes) (first_link siblings.parent siblings.side) → IsLinkOf (vec_len self.now.nodes) result }
    {
        let first = siblings.first();
        successors(self.follow(first), |slot| self.follow(Link::Next(*slot)))
            .take(self.nodes.len())
            .take_while(|slot| self.entry(*slot).is_some_and(|entry| entry.id < id))
            .last()
            .map_or(first, Link::Next)
    }

    /// The slot that a link leads to.
    pub(crate) fn follow(&self, link: Link) -> Option<usize>
        ensures { result ≡ target self.now.first self.now.nodes.items link }
    {
        match link {
            Link::First => self.first,
            Link::Left(slot) => self.nodes.get(slot)?.left,
            Link::Right(slot) => self.nodes.get(slot)?.right,
            Link::Next(slot) => self.nodes.get(slot)?.next,
        }
    }

    /// Makes a link lead to a slot.
    // Three arms that differ in the field: a `match` that gives a `&mut` to the link was tried, as `&mut` and in an
    // `Option`; the borrow checker covers neither, so that no proof closed.
    #[tactic(auto, using(crate::proofs::Entries::entries_kept, std::proofs::lemmas::List::get_or_default))]
    pub(crate) fn set(&mut self, link: Link, to: usize)
        ensures slots { self.new.slots ≡ self.old.slots }
        ensures entries { entries_of self.new.nodes.items ≡ entries_of self.old.nodes.items }
        ensures leads { IsLinkOf (vec_len self.old.nodes) link → target self.new.first self.new.nodes.items link ≡ Some to }
        ensures others { (other : Link) → other ≢ link → target self.new.first self.new.nodes.items other ≡ target self.old.first self.old.nodes.items other }
    {
        match link {
            Link::First => self.first = Some(to),
            Link::Left(slot) => {
                if let Some(node) = self.nodes.get_mut(slot) {
                    node.left = Some(to);
                }
            }
            Link::Right(slot) => {
                if let Some(node) = self.nodes.get_mut(slot) {
                    node.right = Some(to);
                }
            }
            Link::Next(slot) => {
                if let Some(node) = self.nodes.get_mut(slot) {
                    node.next = Some(to);
                }
            }
        }
    }
}
