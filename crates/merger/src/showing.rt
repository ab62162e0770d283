//! The table of a settled merge, as text.
ghost use Rattle.std.specs.Prelude.{◌≡◌, ℕ, ◌*◌, ◌≤◌, true, IfSome, Some, None, MatchResult};
ghost use Rattle.std.specs.Prelude.{length, slice_index_or, string_bytes};
ghost use Rattle.std.specs.Str.{IsAscii};
ghost use Rattle.digits.specs.Hex.{hex_text};
ghost use Rattle.edits.specs.declared.fault.Fault.TheVariants.{NoMemory};
ghost use Rattle.tree.specs.Entries.{entry_at, names};
ghost use Rattle.merger.specs.declared.showing.TheConstants.{WIDEST};
ghost use Rattle.merger.specs.Lines.{index_of, entry_line, entry_lines, pairs_text, table_text};

use crate::merge::{Merge, State};
use digits::pair;
use edits::{Fault, Id, Pair};
use elements::Kind;
use replica::Replica;
use std::alloc::Global;
use std::fmt;
use tree::{Entry, Reading};

impl<K: Kind, S: State> Merge<K, S> {
    /// The index at which an entry is shown; none for a tombstone and for what is no entry.
    pub fn lookup(&self, id: Id) -> Option<usize>
        requires { S.State.settled ≡ true }
        ensures value { result ≡ index_of self.now.replica self.now.reading id }
        ensures shown { IfSome result (λ i. (s : ℕ) × (names id (entry_at self.now.replica.tree.nodes.items s) ≡ true) × (slice_index_or self.now.reading.indexes.items s None ≡ Some i)) }
    {
        self.lines().lookup(id)
    }

    /// The table: a line with the counts, a line for each shown entry in reading order, a line with the clock.
    pub fn show(&self, heap: Global) -> Result<String, Fault>
        requires { S.State.settled ≡ true }
        ensures { MatchResult result (λ t. string_bytes t ≡ table_text K.Kind.packed self.now.replica self.now.reading) (λ f. f ≡ NoMemory) }
    {
        let shown = self.reading.shown();
        let tombstones = self.replica.entries().saturating_sub(shown);
        let lines = self.lines();
        let counts = Counts(self.replica.counts());
        Ok(format!(in heap; "shown {shown} tombstones {tombstones}\n{lines}clock{counts}\n")?)
    }

    /// The lines of the shown entries.
    fn lines(&self) -> Lines<'_, K>
        ensures { (result.replica.now ≡ self.now.replica) × (result.reading.now ≡ self.now.reading) }
    {
        Lines {
            replica: &self.replica,
            reading: &self.reading,
        }
    }
}

/// A line for each shown entry, in reading order.
#[derive(Clone, Copy)]
struct Lines<'a, K: Kind> {
    replica: &'a Replica<K>,
    reading: &'a Reading,
}

impl<K: Kind> Lines<'_, K> {
    /// The index at which an entry is shown; none for a tombstone and for what is no entry. What is printed asks it, too.
    fn lookup(&self, id: Id) -> Option<usize>
        ensures value { result ≡ index_of self.now.replica.now self.now.reading.now id }
        ensures shown { IfSome result (λ i. (s : ℕ) × (names id (entry_at self.now.replica.now.tree.nodes.items s) ≡ true) × (slice_index_or self.now.reading.now.indexes.items s None ≡ Some i)) }
    {
        let slot = self.replica.slot_of(id)?;
        self.reading.index_of(slot)
    }
}

impl<K: Kind> fmt::Display for Lines<'_, K> {
    ghost output = { λ x. Some (entry_lines K.Kind.packed x.replica.now x.reading.now x.reading.now.order.items) };

    fn fmt<W: fmt::Write>(&self, f: &mut fmt::Formatter<W>) -> fmt::Result {
        for slot in self.reading.order() {
            if let Some(entry) = self.replica.entry(*slot)
                && let Some(_) = self.lookup(entry.id)
            {
                write!(f, "{}", Line(entry))?;
            }
        }
        Ok(())
    }
}

/// No kind is wider, by a law of kinds; so no memory is asked for.
const WIDEST: usize = 15;

/// The line of an entry: its identifier, and its element's bytes as digits.
#[derive(Clone, Copy)]
struct Line<K: Kind>(Entry<K>);

impl<K: Kind> fmt::Display for Line<K> {
    ghost output = { λ x. Some (entry_line x.0.id (K.Kind.packed x.0.element)) };

    fn fmt<W: fmt::Write>(&self, f: &mut fmt::Formatter<W>) -> fmt::Result {
        let mut buffer = [0; WIDEST];
        let bytes = &mut buffer[..K::WIDTH];
        self.0.element.pack(bytes);
        writeln!(f, "{} {}", self.0.id, Digits { bytes })
    }
}

/// At most `WIDEST` bytes, two digits for each.
#[derive(Clone, Copy)]
struct Digits<'a> {
    bytes: &'a [u8],
    ghost short: { length bytes.now ≤ WIDEST },
}

impl fmt::Display for Digits<'_> {
    ghost output = { λ x. Some (hex_text x.bytes.now) };

    // All digits in one write, since a write costs more than many digits.
    fn fmt<W: fmt::Write>(&self, f: &mut fmt::Formatter<W>) -> fmt::Result {
        let mut buffer = [0; 2 * WIDEST];
        let digits = &mut buffer[..2 * self.bytes.len()];
        spell(self.bytes, digits);
        f.write_str(str::from_utf8(digits).unwrap())
    }
}

/// Writes two digits for each byte.
fn spell(bytes: &[u8], out: &mut [u8])
    requires { length out.old ≡ 2 * length bytes.now }
    ensures digits { out.new ≡ hex_text bytes.now }
    ensures ascii { IsAscii out.new }
{
    for (at, byte) in bytes.iter().enumerate() {
        let [high, low] = pair(*byte);
        out[2 * at] = high;
        out[2 * at + 1] = low;
    }
}

/// The counts of a clock: a blank, the editor and its count, for each editor with an applied edit.
#[derive(Clone, Copy)]
struct Counts<'a>(&'a [Pair]);

impl fmt::Display for Counts<'_> {
    ghost output = { λ x. Some (pairs_text x.0.now) };

    fn fmt<W: fmt::Write>(&self, f: &mut fmt::Formatter<W>) -> fmt::Result {
        for pair in self.0 {
            if pair.count > 0 {
                write!(f, " {}:{}", pair.editor, pair.count)?;
            }
        }
        Ok(())
    }
}
