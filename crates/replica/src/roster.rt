//! The editors that a replica has accepted edits of, listed and counted.
ghost use Rattle.std.specs.Prelude.{◌≡◌, ◌<◌, false, [], vec_len, MatchResult, nat_le, ◌≤◌, vec_capacity};
ghost use Rattle.edits.specs.declared.fault.Fault.TheVariants.{NoMemory};
ghost use Rattle.edits.specs.Pairs.{count_of};
ghost use Rattle.edits.specs.Clocks.{pairs_of};
ghost use Rattle.replica.specs.Rosters.{lists, includes, admitted, advanced, Placed, Ascends};

use edits::{Clock, Fault, Id, Pair, count_among};
use std::alloc::Global;

/// The most editors of one document.
pub(crate) const MOST_EDITORS: usize = 16;

/// The editors in ascending order, each with the number of its edits that were applied. An editor whose edits all wait
/// is listed with 0.
// No list with a limit that others share: only a line of invariant is alike.
// A sorted `Vec` and no map: `counts` hands it out as a slice, and memory for all is asked for at the making.
#[derive(Drop)]
pub struct Roster {
    pub(crate) pairs: Vec<Pair>,
    ghost reserved: { 16 ≤ vec_capacity pairs },
    ghost few: { vec_len pairs ≤ 16 },
    ghost ascending: { Ascends pairs.items },
}

impl Roster {
    /// No editor, with memory for as many as there may be.
    pub(crate) fn new(heap: Global) -> Result<Roster, Fault>
        ensures { MatchResult result (λ x. x.pairs.items ≡ []) (λ f. f ≡ NoMemory) }
    {
        Ok(Roster {
            pairs: Vec::with_capacity(heap, MOST_EDITORS)?,
        })
    }

    /// The editors and their counts.
    pub(crate) fn pairs(&self) -> &[Pair]
        ensures { result.now ≡ self.now.pairs.items }
    {
        &self.pairs
    }

    /// How many edits of the editor were applied.
    // Not by `place`: clauses cite the count among pairs in any order, as of clocks, and there are 16 at most.
    pub(crate) fn count(&self, editor: u8) -> u16
        ensures { result ≡ count_of self.now.pairs.items editor }
    {
        count_among(self.pairs(), editor)
    }

    /// Whether the edit was applied.
    pub(crate) fn covers(&self, id: Id) -> bool
        ensures { result ≡ nat_le id.number (count_of self.now.pairs.items id.editor) }
    {
        id.number <= self.count(id.editor)
    }

    /// Whether everything that the clock counts was applied.
    pub(crate) fn includes(&self, clock: &Clock) -> bool
        ensures { result ≡ includes self.now.pairs.items (pairs_of clock.now) }
    {
        clock
            .listed()
            .iter()
            .all(|pair| pair.count <= self.count(pair.editor))
    }

    /// The place at which the editor is listed, or the one that it would have.
    fn place(&self, editor: u8) -> Result<usize, usize>
        ensures { Placed editor self.now.pairs.items result }
    {
        self.pairs.binary_search_by_key(&editor, |pair| pair.editor)
    }

    /// Whether the editor is listed.
    pub(crate) fn lists(&self, editor: u8) -> bool
        ensures { result ≡ lists self.now.pairs.items editor }
    {
        self.place(editor).is_ok()
    }

    /// Whether no further editor can be listed.
    pub(crate) fn is_full(&self) -> bool
        ensures { result ≡ nat_le 16 (vec_len self.now.pairs) }
    {
        self.pairs.len() >= MOST_EDITORS
    }

    /// Lists the editor, unless it is listed.
    pub(crate) fn admit(&mut self, editor: u8)
        requires { lists self.old.pairs.items editor ≡ false → vec_len self.old.pairs < 16 }
        ensures { self.new.pairs.items ≡ admitted editor self.old.pairs.items }
    {
        if let Err(place) = self.place(editor) {
            // Never refused: there is memory for every editor.
            self.pairs.insert(place, Pair { editor, count: 0 }).unwrap();
        }
    }

    /// Counts an edit of a listed editor.
    pub(crate) fn advance(&mut self, id: Id)
        ensures { self.new.pairs.items ≡ advanced id self.old.pairs.items }
    {
        if let Ok(place) = self.place(id.editor) {
            self.pairs[place].count = id.number;
        }
    }
}
