//! The edits that a record stands for.
ghost use Rattle.std.specs.Prelude.{◌≡◌, ◌+◌, ◌-◌, ◌*◌, ◌<◌, true, length, take, drop, Some, None, MatchResult, ◌≢◌};
ghost use Rattle.edits.specs.declared.edit.Parent.TheVariants.{Entry};
ghost use Rattle.edits.specs.declared.edit.Side.TheVariants.{Right};
ghost use Rattle.edits.specs.declared.fault.Fault.TheVariants.{OutsideLimits};
ghost use Rattle.edits.specs.Clocks.{pairs_of};
ghost use Rattle.edits.specs.Pairs.{counting};
ghost use Rattle.edits.specs.Rules.{stamp_kept, parent_kept, covers};
ghost use Rattle.formats.specs.Kept.{raw, Kept};
ghost use Rattle.formats.specs.Expanded.{length_of, deletes, plain, further, inserted, edit_at};

use crate::record::Record;
use edits::{Clock, Edit, Fault, Id, Parent, Placement, Removal, Side, Stamp};
use elements::Kind;

impl Record<'_> {
    /// How many edits the record stands for.
    pub fn len(&self) -> usize
        ensures { result ≡ length_of (raw self.now) }
    {
        match self {
            Record::Insertion { .. } => 1,
            Record::Deletion { .. } => 1,
            Record::Run { len, .. } => usize::from(*len),
        }
    }

    /// The edit at the place `i` of those that the record stands for, counted from 0. A place behind the last, and a
    /// record that was not read as one of this kind, are the caller's fault.
    pub fn edit<K: Kind>(&self, i: usize) -> Result<Edit<K>, Fault>
        ensures { MatchResult result (λ e. edit_at K.Kind.WIDTH K.Kind.unpacked (raw self.now) i ≡ Some (plain e)) (λ f. (f ≡ OutsideLimits) × (Kept K.Kind.WIDTH self.now → edit_at K.Kind.WIDTH K.Kind.unpacked (raw self.now) i ≡ None)) }
    {
        if i >= self.len() {
            return Err(Fault::OutsideLimits);
        }
        match self {
            Record::Insertion {
                id,
                clock,
                parent,
                side,
                element,
                ..
            } => insertion::<K>(*id, *clock, *parent, *side, element),
            Record::Deletion { id, clock, target } => deletion::<K>(*id, *clock, *target),
            // By references: a later edit has a clock of its own, and the first one's is not copied for it.
            Record::Run {
                id,
                clock,
                parent,
                side,
                elements,
                ..
            } => {
                let element = element_of::<K>(elements, i)?;
                match i.checked_sub(1) {
                    None => insertion::<K>(*id, *clock, *parent, *side, element),
                    Some(before) => later::<K>(*id, clock, before, element),
                }
            }
        }
    }
}

// By the plain fields of a record: a struct of them would be `Placement`, which only parts that keep the rules make.
/// The insertion of the element that the bytes stand for.
fn insertion<K: Kind>(
    id: Id,
    clock: Clock,
    parent: Parent,
    side: Side,
    bytes: &[u8],
) -> Result<Edit<K>, Fault>
    ensures { MatchResult result (λ e. inserted K.Kind.WIDTH K.Kind.unpacked (id, pairs_of clock, parent, side) (K.Kind.unpacked bytes.now) ≡ Some (plain e)) (λ f. (f ≡ OutsideLimits) × (stamp_kept id clock ≡ true → parent_kept (pairs_of clock) parent side ≡ true → K.Kind.unpacked bytes.now ≡ None)) }
{
    let element = K::read(bytes).ok_or(Fault::OutsideLimits)?;
    let stamp = Stamp::new(id, clock)?;
    let placement = Placement::new(stamp, parent, side)?;
    Ok(Edit::Insertion { placement, element })
}

/// The deletion of the target.
fn deletion<K: Kind>(id: Id, clock: Clock, target: Id) -> Result<Edit<K>, Fault>
    ensures { MatchResult result (λ e. plain e ≡ deletes id (pairs_of clock) target) (λ f. (f ≡ OutsideLimits) × (stamp_kept id clock ≡ true → covers (pairs_of clock) target ≢ true)) }
{
    let stamp = Stamp::new(id, clock)?;
    Ok(Edit::Deletion(Removal::new(stamp, target)?))
}

/// The insertion behind the place `i` of the run that begins with the edit.
fn later<K: Kind>(id: Id, clock: &Clock, i: usize, bytes: &[u8]) -> Result<Edit<K>, Fault>
    ensures { MatchResult result (λ e. inserted K.Kind.WIDTH K.Kind.unpacked (further id (i + 1), counting id.editor (id.number + i) (pairs_of clock.now), Entry (further id i), Right) (K.Kind.unpacked bytes.now) ≡ Some (plain e)) (λ f. (f ≡ OutsideLimits) × (stamp_kept id clock.now ≡ true → id.number + i < 65535 → K.Kind.unpacked bytes.now ≡ None)) }
{
    let before = id_further(id, i)?;
    let id = id_further(before, 1)?;
    let clock = clock.counting(before).ok_or(Fault::OutsideLimits)?;
    insertion::<K>(id, clock, Parent::Entry(before), Side::Right, bytes)
}

/// The identifier `n` numbers on.
fn id_further(id: Id, n: usize) -> Result<Id, Fault>
    ensures { MatchResult result (λ x. x ≡ further id n) (λ f. (f ≡ OutsideLimits) × (65535 < id.number + n)) }
{
    let n = u16::try_from(n).map_err(|_| Fault::OutsideLimits)?;
    let number = id.number.checked_add(n).ok_or(Fault::OutsideLimits)?;
    Ok(Id {
        editor: id.editor,
        number,
    })
}

/// The bytes of the element at the place `i`.
fn element_of<K: Kind>(elements: &[u8], i: usize) -> Result<&[u8], Fault>
    ensures { MatchResult result (λ b. b.now ≡ take K.Kind.WIDTH (drop (i * K.Kind.WIDTH) elements.now)) (λ f. (f ≡ OutsideLimits) × (length elements.now < i * K.Kind.WIDTH + K.Kind.WIDTH)) }
{
    // By the offset: `chunks_exact(..).nth(i)` walks over the elements before it, as the library writes it.
    let start = i.checked_mul(K::WIDTH).ok_or(Fault::OutsideLimits)?;
    let rest = elements.get(start..).ok_or(Fault::OutsideLimits)?;
    rest.get(..K::WIDTH).ok_or(Fault::OutsideLimits)
}
