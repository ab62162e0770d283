//! The clock of a head.
ghost use Rattle.std.specs.Prelude.{◌≡◌, ◌+◌, ◌*◌, true, length, OnOk, Ok, Err, MatchResult};
ghost use Rattle.edits.specs.Clocks.{pairs_of, clock_kept};
ghost use Rattle.formats.specs.Fields.{pair_at, clock_at};
ghost use Rattle.formats.specs.Readers.{MovesTo};

use crate::reader::Reader;
use edits::{Clock, Fault, Id, Pair};

/// How many pairs a clock lists at most.
const MOST_PAIRS: u8 = 16;

impl Reader<'_> {
    /// A pair, whose editor comes behind `last`.
    fn pair(&mut self, last: u8) -> Result<Pair, Fault>
        ensures value { result ≡ pair_at last self.old.input.now self.old.at }
        ensures moved { OnOk result (MovesTo self.old self.new (self.old.at + 3)) }
    {
        let place = self.at;
        // Laid out as an identifier is.
        let Id {
            editor,
            number: count,
        } = self.id()?;
        if editor <= last || count == 0 {
            return Err(Fault::Pairs(place));
        }
        Ok(Pair { editor, count })
    }

    /// The count of pairs, and the pairs.
    pub(crate) fn clock(&mut self) -> Result<Clock, Fault>
        ensures { MatchResult result (λ x. (clock_at self.old.input.now self.old.at ≡ Ok (pairs_of x)) × (clock_kept x ≡ true) × MovesTo self.old self.new (self.old.at + 1 + 3 * length (pairs_of x))) (λ e. clock_at self.old.input.now self.old.at ≡ Err e) }
    {
        let place = self.at;
        let len = self.byte()?;
        if len > MOST_PAIRS {
            return Err(Fault::Pairs(place));
        }
        let mut pairs = [Pair {
            editor: 0,
            count: 0,
        }; MOST_PAIRS as usize];
        let mut last = 0;
        for pair in &mut pairs[..usize::from(len)] {
            *pair = self.pair(last)?;
            last = pair.editor;
        }
        Ok(Clock { len, pairs })
    }
}
