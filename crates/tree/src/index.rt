//! The slots of identifiers.
ghost use Rattle.std.specs.Prelude.{◌≡◌, ◌+◌, ◌<◌, ◌≤◌, [], IfOk, IfErr, vec_len, vec_capacity, MatchOption, MatchResult, Contains, All, ◌≢◌};
ghost use Rattle.std.specs.List.{HoldsAt};
ghost use Rattle.std.specs.List.Sorted.{IsSearchInRange};
ghost use Rattle.tree.specs.Places.{GainsUnlessNamed, IsAscending, IsGapFor};
ghost use Rattle.edits.specs.declared.fault.Fault.TheVariants.{NoMemory};

use edits::{Fault, Id};
use std::alloc::Global;

/// An identifier and the slot of its entry.
// Four bytes for the slot, so that eight are moved for each place behind a new one.
#[derive(Clone, Copy)]
pub struct Place {
    pub id: Id,
    pub slot: u32,
}

/// The places of identifiers in ascending order, with memory for as many as asked for.
// No list with a limit that others share: only a line of invariant is alike.
// No map: a `BTreeMap` asks for memory at insertions, and a `HashMap` may look at every entry for one identifier.
#[derive(Drop)]
pub struct Index {
    pub(crate) most: usize,
    pub(crate) places: Vec<Place>,
    ghost reserved: { most ≤ vec_capacity places },
    ghost ascending: { IsAscending places.items },
}

impl Index {
    ghost use Rattle.tree.specs.Lookups.{listed_slot};

    /// An empty index.
    pub(crate) fn new(heap: Global, most: usize) -> Result<Index, Fault>
        ensures { MatchResult result (λ x. (x.most ≡ most) × (x.places.items ≡ [])) (λ f. f ≡ NoMemory) }
    {
        Ok(Index {
            most,
            places: Vec::with_capacity(heap, most)?,
        })
    }

    /// The slot of the identifier, if it has one.
    pub(crate) fn find(&self, id: Id) -> Option<usize>
        ensures value { result ≡ listed_slot self.now.places.items id }
        ensures listed { MatchOption result (All (λ place. place.id ≢ id) self.now.places.items) (λ slot. Contains self.now.places.items (record { id = id; slot = slot })) }
    {
        match self.search(id) {
            Ok(at) => Some(self.places[at].slot as usize),
            Err(_) => None,
        }
    }

    /// Puts a new identifier in its place.
    // That the limit stays relates two states, which no invariant of the type can say.
    pub(crate) fn add(&mut self, id: Id, slot: usize)
        requires room { vec_len self.old.places < self.old.most }
        requires small { slot < 65536 }
        ensures most { self.new.most ≡ self.old.most }
        ensures len { vec_len self.new.places ≤ vec_len self.old.places + 1 }
        ensures places { GainsUnlessNamed self.old.places.items self.new.places.items (record { id = id; slot = slot }) }
    {
        if let Err(at) = self.search(id) {
            // Never refused: there is memory for every slot.
            let place = Place {
                id,
                slot: slot as u32,
            };
            self.places.insert(at, place).unwrap();
        }
    }

    /// Where the identifier is, or else where it belongs.
    fn search(&self, id: Id) -> Result<usize, usize>
        ensures within { IsSearchInRange result (vec_len self.now.places) }
        ensures found { IfOk result (λ at. HoldsAt (λ place. place.id ≡ id) self.now.places.items at) }
        ensures gap { IfErr result (IsGapFor id self.now.places.items) }
    {
        self.places.binary_search_by_key(&id, |place| place.id)
    }
}
