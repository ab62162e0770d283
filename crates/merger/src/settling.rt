//! Merges made, settled and opened again.
ghost use Rattle.std.specs.Prelude.{◌≡◌, ℕ, true, ◌&&◌, [], if◌then◌else◌, Some, None, MatchResult, vec_len};
ghost use Rattle.edits.specs.declared.fault.Fault.TheVariants.{NoMemory, OutsideLimits, StillWaiting};
ghost use Rattle.tree.specs.Entries.{slots_allowed};
ghost use Rattle.replica.specs.Shelves.{room_allowed, lowest_from};
ghost use Rattle.replica.specs.Taking.{roster_of, shelf_of, entries_in};

use crate::merge::{Gathering, Merge, Settled, Unsettled};
use edits::Fault;
use elements::Kind;
use replica::Replica;
use std::alloc::Global;
use tree::Reading;

impl<K: Kind> Merge<K, Gathering> {
    /// A new merge, with memory for as many entries (1 to 65,536) and as many waiting edits (1 to 64) as asked for.
    pub fn new(heap: Global, slots: usize, room: usize) -> Result<Merge<K, Gathering>, Fault>
        ensures { MatchResult result (λ x. (entries_in x.replica ≡ 0) × (shelf_of x.replica ≡ []) × (roster_of x.replica ≡ []) × (x.replica.tree.slots ≡ slots) × (x.replica.shelf.room ≡ room) × ((slots_allowed slots && room_allowed room) ≡ true)) (λ f. f ≡ (if slots_allowed slots && room_allowed room then NoMemory else OutsideLimits)) }
    {
        let replica = Replica::new(heap, slots, room)?;
        let reading = Reading::new(heap, slots)?;
        Ok(Merge {
            replica,
            reading,
            state: Gathering,
        })
    }

    /// Settles the merge, unless edits still wait.
    pub fn settle(self) -> Result<Merge<K, Settled>, Unsettled<K>>
        ensures { MatchResult result (λ s. (s.replica ≡ self.replica) × (vec_len s.reading.indexes ≡ entries_in self.replica) × (lowest_from None (shelf_of self.replica) ≡ None)) (λ e. (e.merge ≡ self) × (lowest_from None (shelf_of self.replica) ≡ Some e.lowest)) }
    {
        if let Some(lowest) = self.replica.lowest_waiting() {
            return Err(Unsettled {
                merge: self,
                lowest,
            });
        }
        let mut reading = self.reading;
        // Never refused: the reading has memory for every slot.
        self.replica.read(&mut reading).unwrap();
        Ok(Merge {
            replica: self.replica,
            reading,
            state: Settled,
        })
    }
}

impl<K: Kind> Merge<K, Settled> {
    /// Opens the merge for further logs.
    pub fn reopen(self) -> Merge<K, Gathering>
        ensures { result.replica ≡ self.replica }
    {
        Merge {
            replica: self.replica,
            reading: self.reading,
            state: Gathering,
        }
    }
}

impl<K: Kind> From<Unsettled<K>> for Fault {
    ghost from_gives = { λ e f. f ≡ StillWaiting e.lowest };

    fn from(unsettled: Unsettled<K>) -> Fault {
        Fault::StillWaiting(unsettled.lowest)
    }
}
