//! Clocks: what they list and count.
ghost use Rattle.std.specs.Prelude.{◌≡◌, ◌<◌, ◌≤◌, true, length, IfSome, MatchOption};
ghost use Rattle.edits.specs.Clocks.{pairs_of, clock_kept};
ghost use Rattle.edits.specs.Pairs.{count_of, place_of, counting};
ghost use Rattle.edits.specs.Rules.{covers};

use crate::id::Id;
use crate::pairs::{count_among, place_among};

/// How many edits of an editor are counted.
#[derive(Clone, Copy, PartialEq, Eq, Debug)]
pub struct Pair {
    pub editor: u8,
    pub count: u16,
}

/// A clock: the first `len` pairs; the others are unused, with editor 0 and count 0. It lists at most 16 editors,
/// ascending, with counts of at least 1; an editor that is not listed counts 0. The rules are held by the types of edits
/// that carry a clock.
// An array with a length beside it: an edit is copied to the shelf, when no more memory may be asked for, so it holds no
// `Vec`, and no list of the library with its own length can be copied like that.
#[derive(Clone, Copy)]
pub struct Clock {
    pub len: u8,
    pub pairs: [Pair; 16],
}

impl Clock {
    /// What the clock lists.
    pub fn listed(&self) -> &[Pair]
        ensures { result.now ≡ pairs_of self.now }
    {
        let len = (self.len as usize).min(16);
        &self.pairs[0..len]
    }

    /// How many edits of the editor are counted.
    pub fn count(&self, editor: u8) -> u16
        ensures { result ≡ count_of (pairs_of self.now) editor }
    {
        count_among(self.listed(), editor)
    }

    /// Whether the edit is counted.
    pub fn covers(&self, id: Id) -> bool
        ensures { result ≡ covers (pairs_of self.now) id }
    {
        id.editor > 0 && id.number > 0 && id.number <= self.count(id.editor)
    }

    /// The clock that counts the edit besides; none where its editor is not listed and 16 are.
    pub fn counting(&self, id: Id) -> Option<Clock>
        ensures value { MatchOption result (16 < length (counting id.editor id.number (pairs_of self.now))) (λ c. pairs_of c ≡ counting id.editor id.number (pairs_of self.now)) }
        ensures kept { 0 < id.editor → 0 < id.number → clock_kept self.now ≡ true → IfSome result (λ c. clock_kept c ≡ true) }
    {
        let pair = Pair {
            editor: id.editor,
            count: id.number,
        };
        let all = self.all();
        let len = self.listed().len();
        let place = self.place(id.editor);
        let mut pairs = self.pairs;
        if place < len && all[place].editor == id.editor {
            pairs[place] = pair;
            return Some(Clock {
                len: self.len,
                pairs,
            });
        }
        if len >= 16 {
            return None;
        }
        pairs[place] = pair;
        pairs[place + 1..len + 1].copy_from_slice(&all[place..len]);
        Some(Clock {
            len: len as u8 + 1,
            pairs,
        })
    }

    /// The pairs, listed or unused.
    fn all(&self) -> &[Pair]
        ensures value { result.now ≡ self.now.pairs }
        ensures full { length self.now.pairs ≡ 16 }
        ensures most { length (pairs_of self.now) ≤ 16 }
    {
        &self.pairs[0..16]
    }

    /// How many listed pairs come before the editor.
    fn place(&self, editor: u8) -> usize
        ensures value { result ≡ place_of editor (pairs_of self.now) }
        ensures within { result ≤ length (pairs_of self.now) }
    {
        place_among(self.listed(), editor)
    }
}
