//! Logs taken in.
ghost use Rattle.std.specs.Prelude.{◌≡◌, ◌+◌, ◌-◌, ◌<◌, ◌≤◌, false, length, if◌then◌else◌, Ok, Err, MatchResult, OnOk, nat_eq, nat_lt, slice_index};
ghost use Rattle.std.specs.Iterator.{IsFinite};
ghost use Rattle.edits.specs.declared.fault.Fault.TheVariants.{Extent, LogHead, WrongSize};

use crate::merge::{Merge, State};
use edits::{Edit, Fault};
use elements::Kind;
use formats::{head_at, read_record};
use replica::Replica;

/// The longest input that a merge takes.
pub const LONGEST_INPUT: usize = 65_536;

impl<K: Kind, S: State> Merge<K, S> {
    /// Takes in logs that stand end to end. Where one is refused, the edits before the spot stay.
    pub fn gather(&mut self, input: &[u8]) -> Result<(), Fault>
        requires { S.State.settled ≡ false }
        ensures slots { self.new.replica.tree.slots ≡ self.old.replica.tree.slots }
        ensures long { 65536 < length input.now → (result ≡ Err WrongSize) × (self.new ≡ self.old) }
        ensures empty { length input.now ≡ 0 → (result ≡ Ok tt) × (self.new ≡ self.old) }
    {
        if input.len() > LONGEST_INPUT {
            return Err(Fault::WrongSize);
        }
        let mut format = None;
        // Each part tells only when it is read where the next begins, and a refusal names its offset in the input.
        let mut at = 0;
        while at < input.len() {
            if let Some(next) = head_at(input, at) {
                at = behind_head::<K>(input, at)?;
                format = Some(next);
            } else {
                let format = format.ok_or_else(|| no_head(input, at))?;
                let record = read_record::<K>(format, input, &mut at)?;
                let edits = (0..record.len()).map(|i| record.edit(i));
                take_in_all(&mut self.replica, edits)?;
            }
        }
        Ok(())
    }
}

/// Takes in edits in turn, up to the first that cannot be made or is refused.
fn take_in_all<K: Kind, I: Iterator<Item = Result<Edit<K>, Fault>> + Drop>(
    replica: &mut Replica<K>,
    edits: I,
) -> Result<(), Fault>
    requires can { I.can_next edits }
    requires ends { IsFinite (I.remaining edits) }
    ensures { replica.new.tree.slots ≡ replica.old.tree.slots }
{
    for edit in edits {
        replica.take_in(&edit?)?;
    }
    Ok(())
}

/// The offset behind a head, whose kind must be that of the merge.
fn behind_head<K: Kind>(input: &[u8], at: usize) -> Result<usize, Fault>
    requires { at + 2 ≤ length input.now }
    ensures { MatchResult result (λ end. (end ≡ at + 3) × (end ≤ length input.now) × (slice_index input.now (at + 2) ≡ K.Kind.CODE)) (λ f. f ≡ (if nat_eq (length input.now) (at + 2) then Extent (length input.now) else LogHead (at + 2))) }
{
    let place = at + 2;
    let kind = *input.get(place).ok_or(Fault::Extent(input.len()))?;
    if kind != K::CODE {
        return Err(Fault::LogHead(place));
    }
    Ok(place + 1)
}

/// Why an input does not begin with a head: it is cut off, or something else stands there.
fn no_head(input: &[u8], at: usize) -> Fault
    ensures { result ≡ (if nat_lt (length input.now - at) 2 then Extent (length input.now) else LogHead at) }
{
    if input.len().saturating_sub(at) < 2 {
        Fault::Extent(input.len())
    } else {
        Fault::LogHead(at)
    }
}
