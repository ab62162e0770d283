//! The fields of a record, tested in order as they are read.
ghost use Rattle.std.specs.Prelude.{◌≡◌, ◌+◌, ◌*◌, ◌<◌, length, IfOk, OnOk, Ok, Err, MatchResult};
ghost use Rattle.edits.specs.Clocks.{pairs_of};
ghost use Rattle.formats.specs.Fields.{id_at, name_at, stamp_at, side_at, parent_of, placement_at, placement_parts, removal_at, removal_parts};
ghost use Rattle.formats.specs.Readers.{MovesTo};

use crate::reader::Reader;
use edits::{Fault, Id, Parent, Placement, Removal, Side, Stamp, own_kept, parent_kept};

impl Reader<'_> {
    /// An editor and a number, whatever they are.
    // By three bytes at once: clocks are read so, pair by pair, and a test for each byte costs half as much again.
    pub(crate) fn id(&mut self) -> Result<Id, Fault>
        ensures value { result ≡ id_at self.old.input.now self.old.at }
        ensures moved { OnOk result (MovesTo self.old self.new (self.old.at + 3)) }
    {
        let bytes = self.bytes(3)?;
        let editor = bytes[0];
        let number = u16::from_be_bytes([bytes[1], bytes[2]]);
        Ok(Id { editor, number })
    }

    /// The identifier of a head, which has no 0.
    fn name(&mut self) -> Result<Id, Fault>
        ensures value { result ≡ name_at self.old.input.now self.old.at }
        ensures named { IfOk result (λ i. (0 < i.editor) × (0 < i.number) × MovesTo self.old self.new (self.old.at + 3)) }
    {
        let editor_place = self.at;
        let editor = self.byte()?;
        if editor == 0 {
            return Err(Fault::Numbering(editor_place));
        }
        let number_place = self.at;
        let number = self.two()?;
        if number == 0 {
            return Err(Fault::Numbering(number_place));
        }
        Ok(Id { editor, number })
    }

    /// The head of a record: which edit it is, and its clock.
    fn stamp(&mut self) -> Result<Stamp, Fault>
        ensures { MatchResult result (λ x. (stamp_at self.old.input.now self.old.at ≡ Ok (x.id, pairs_of x.clock)) × MovesTo self.old self.new (self.old.at + 4 + 3 * length (pairs_of x.clock))) (λ e. stamp_at self.old.input.now self.old.at ≡ Err e) }
    {
        let id = self.name()?;
        let clock_place = self.at;
        let clock = self.clock()?;
        // Not by `Stamp::new`, which would test the whole clock again that was tested as it was read.
        if own_kept(id, &clock) {
            Ok(Stamp { id, clock })
        } else {
            Err(Fault::Pairs(clock_place))
        }
    }

    /// A side: 0 is left, 1 is right.
    fn side(&mut self) -> Result<Side, Fault>
        ensures value { result ≡ side_at self.old.input.now self.old.at }
        ensures moved { OnOk result (MovesTo self.old self.new (self.old.at + 1)) }
    {
        let place = self.at;
        // Not by a `TryFrom<u8>`: that would stand in `edits`, which does not know the bytes of a record.
        match self.byte()? {
            0 => Ok(Side::Left),
            1 => Ok(Side::Right),
            _ => Err(Fault::Reference(place)),
        }
    }

    /// Head, parent and side of an insertion or of a run's first.
    pub(crate) fn placement(&mut self) -> Result<Placement, Fault>
        ensures { MatchResult result (λ x. (placement_at self.old.input.now self.old.at ≡ Ok (placement_parts x)) × MovesTo self.old self.new (self.old.at + 8 + 3 * length (pairs_of x.stamp.clock))) (λ e. placement_at self.old.input.now self.old.at ≡ Err e) }
    {
        let stamp = self.stamp()?;
        let parent_place = self.at;
        let parent = parent_of(self.id()?);
        let side = self.side()?;
        // Not by `Placement::new`, whose fault would have to be replaced: its spot is known here alone.
        if parent_kept(&stamp.clock, parent, side) {
            Ok(Placement {
                stamp,
                parent,
                side,
            })
        } else {
            Err(Fault::Reference(parent_place))
        }
    }

    /// Head and target of a deletion.
    pub(crate) fn removal(&mut self) -> Result<Removal, Fault>
        ensures { MatchResult result (λ x. (removal_at self.old.input.now self.old.at ≡ Ok (removal_parts x)) × MovesTo self.old self.new (self.old.at + 7 + 3 * length (pairs_of x.stamp.clock))) (λ e. removal_at self.old.input.now self.old.at ≡ Err e) }
    {
        let stamp = self.stamp()?;
        let target_place = self.at;
        let target = self.id()?;
        // Not by `Removal::new`, for the same reason.
        if stamp.clock.covers(target) {
            Ok(Removal { stamp, target })
        } else {
            Err(Fault::Reference(target_place))
        }
    }
}

// No `From<Id> for Parent`: only a record writes the start as 0.0, and the impl would have to stand in `edits`.
/// What an identifier in a parent's place stands for: 0.0 is the start.
fn parent_of(id: Id) -> Parent
    ensures { result ≡ parent_of id }
{
    match id {
        Id {
            editor: 0,
            number: 0,
        } => Parent::Start,
        _ => Parent::Entry(id),
    }
}
