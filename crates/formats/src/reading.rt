//! Whole records.
ghost use Rattle.std.specs.Prelude.{◌≡◌, ◌+◌, ◌<◌, ◌≤◌, length, IfOk, Ok, Err, MatchResult, slice_index};
ghost use Rattle.formats.specs.Records.{length_at, insertion_at, deletion_at, run_at, fields_at, record_at};
ghost use Rattle.formats.specs.Expanded.{Whole};
ghost use Rattle.formats.specs.Kept.{raw, Kept};
ghost use Rattle.formats.specs.Readers.{MovesTo, Reads};

use crate::format::Format;
use crate::guard::Guard;
use crate::marks::{DELETION, INSERTION, RUN};
use crate::reader::Reader;
use crate::record::Record;
use edits::{Fault, Id};
use elements::Kind;

/// How many elements a run has at most.
const LONGEST_RUN: u8 = 64;

impl<'a> Reader<'a> {
    /// An insertion, from behind its mark.
    fn insertion<K: Kind>(&mut self) -> Result<Record<'a>, Fault>
        ensures { Reads K.Kind.WIDTH self.old self.new (insertion_at K.Kind.WIDTH K.Kind.unpacked self.old.input.now self.old.at) result }
    {
        let placement = self.placement()?;
        let offset = self.at;
        let element = self.element::<K>()?;
        Ok(Record::Insertion {
            id: placement.stamp.id,
            clock: placement.stamp.clock,
            parent: placement.parent,
            side: placement.side,
            offset,
            element,
        })
    }

    /// A deletion, likewise.
    fn deletion<K: Kind>(&mut self) -> Result<Record<'a>, Fault>
        ensures { Reads K.Kind.WIDTH self.old self.new (deletion_at self.old.input.now self.old.at) result }
    {
        let removal = self.removal()?;
        Ok(Record::Deletion {
            id: removal.stamp.id,
            clock: removal.stamp.clock,
            target: removal.target,
        })
    }

    /// How many elements the run that begins with the edit has.
    fn run_length(&mut self, id: Id) -> Result<u8, Fault>
        ensures value { result ≡ length_at id self.old.input.now self.old.at }
        ensures bounds { IfOk result (λ m. (2 ≤ m) × (m ≤ 64) × (id.number + m ≤ 65536) × MovesTo self.old self.new (self.old.at + 1)) }
    {
        let place = self.at;
        let len = self.byte()?;
        if !(2..=LONGEST_RUN).contains(&len) {
            return Err(Fault::RunLength(place));
        }
        // The last of the run must have a number too.
        match id.number.checked_add(u16::from(len) - 1) {
            Some(_) => Ok(len),
            None => Err(Fault::Numbering(place)),
        }
    }

    /// A run, likewise.
    fn run<K: Kind>(&mut self) -> Result<Record<'a>, Fault>
        ensures { Reads K.Kind.WIDTH self.old self.new (run_at K.Kind.WIDTH K.Kind.unpacked self.old.input.now self.old.at) result }
    {
        let placement = self.placement()?;
        let len = self.run_length(placement.stamp.id)?;
        let offset = self.at;
        let elements = self.elements::<K>(len)?;
        Ok(Record::Run {
            id: placement.stamp.id,
            clock: placement.stamp.clock,
            parent: placement.parent,
            side: placement.side,
            len,
            offset,
            elements,
        })
    }

    /// The record with the mark, which stands at the offset `mark`, from behind it.
    fn fields<K: Kind>(
        &mut self,
        format: Format,
        bytes: [u8; 2],
        mark: usize,
    ) -> Result<Record<'a>, Fault>
        ensures { Reads K.Kind.WIDTH self.old self.new (fields_at K.Kind.WIDTH K.Kind.unpacked format (slice_index bytes 0) (slice_index bytes 1) mark self.old.input.now self.old.at) result }
    {
        match &bytes {
            INSERTION => self.insertion::<K>(),
            DELETION => self.deletion::<K>(),
            RUN if format.has_runs() => self.run::<K>(),
            _ => Err(Fault::Mark(mark)),
        }
    }
}

/// Reads the record at the offset `at`, which then stands behind it. Where there is none, `at` stays.
// Spelled out, and not by `Reads`, for who reads this contract alone.
pub fn read_record<'a, K: Kind>(
    format: Format,
    input: &'a [u8],
    at: &mut usize,
) -> Result<Record<'a>, Fault>
    ensures { MatchResult result (λ x. (record_at K.Kind.WIDTH K.Kind.unpacked format input.now at.old ≡ Ok (raw x, at.new)) × Kept K.Kind.WIDTH x × (at.old < at.new) × (at.new ≤ length input.now) × Whole K.Kind.WIDTH K.Kind.unpacked (raw x)) (λ e. (record_at K.Kind.WIDTH K.Kind.unpacked format input.now at.old ≡ Err e) × (at.new ≡ at.old)) }
{
    let mark = *at;
    let mut guard = Guard {
        at,
        back_to: Some(mark),
    };
    let mut reader = Reader::new(input, mark)?;
    let bytes = [reader.byte()?, reader.byte()?];
    // While the fields are read the offset stands behind the mark; the guard puts it back.
    *guard.at = reader.at;
    let record = reader.fields::<K>(format, bytes, mark)?;
    *guard.at = reader.at;
    guard.back_to = None;
    Ok(record)
}
