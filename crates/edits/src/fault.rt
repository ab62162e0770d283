//! Why a call was refused: the listing of the faults with number, layer and spot of each case, and the line that is
//! printed of it.
ghost use Rattle.std.specs.Prelude.{◌≡◌, IfOk, Some, string_bytes};
ghost use Rattle.edits.specs.declared.fault.Fault.TheVariants.{NoMemory};
ghost use Rattle.edits.specs.Faults.{number_of, layer_of, spot_of, word_of, spot_text, fault_text, fault_line};

use crate::id::Id;
use std::alloc::{AllocError, Global};
use std::error::Error;
use std::fmt;

/// One case for each refusal, in the order of their numbers. `usize` values are offsets in the record or the input
/// unless said otherwise; identifiers are those of the edit that was refused.
#[derive(Clone, Copy, PartialEq, Eq, Debug)]
pub enum Fault {
    /// The machine has no memory left.
    NoMemory,
    /// A field is cut off (the offset is the input's end), or bytes follow a single record (the first of them).
    Extent(usize),
    /// The mark is none of this format.
    Mark(usize),
    /// The editor or the number of a head is 0 (that field), or a run passes the greatest number (its length).
    Numbering(usize),
    /// Over 16 pairs, or the own count is wrong, or 17 editors with the own (the pair count); or a pair that holds a
    /// 0 or does not ascend (the pair).
    Pairs(usize),
    /// The side is above 1 (the side), or the parent or the target is against the rules (that field).
    Reference(usize),
    /// The kind refuses the element.
    Element(usize),
    /// A run's length is not 2 to 64.
    RunLength(usize),
    /// The edit's editor is new, and the roster is full.
    RosterFull(Id),
    /// Entries and waiting insertions fill the slots.
    SlotsFull(Id),
    /// The edit is not ready, and the shelf is full.
    ShelfFull(Id),
    /// An edit of the own editor waits.
    OwnEditWaits,
    /// The own editor has used its greatest number.
    NumbersUsedUp,
    /// The index is larger than the document allows.
    IndexTooLarge,
    /// The channel cannot hold the record; the value is the number of edits sent before it.
    ChannelFull(usize),
    /// A buffer or a list is too short, or the input is too long.
    WrongSize,
    /// No log head comes first (its place), or the kind is unknown or changed (the kind's byte).
    LogHead(usize),
    /// Edits still wait; the lowest of them.
    StillWaiting(Id),
    /// A replica, a channel, an edit or an element would be outside its limits.
    OutsideLimits,
}

/// The layer that refused.
#[derive(Clone, Copy, PartialEq, Eq, Debug)]
pub enum Layer {
    Format,
    Replica,
    Channel,
    Merge,
    Caller,
}

/// What a fault points at: a number (an offset, a count of edits, or 0 where there is nothing to point at) or an edit.
#[derive(Clone, Copy, PartialEq, Eq, Debug)]
pub enum Spot {
    Number(usize),
    Edit(Id),
}

impl Fault {
    /// The number of the refusal; 0 is want of memory.
    pub fn number(self) -> u8
        ensures { result ≡ number_of self }
    {
        match self {
            Fault::NoMemory => 0,
            Fault::Extent(_) => 1,
            Fault::Mark(_) => 2,
            Fault::Numbering(_) => 3,
            Fault::Pairs(_) => 4,
            Fault::Reference(_) => 5,
            Fault::Element(_) => 6,
            Fault::RunLength(_) => 7,
            Fault::RosterFull(_) => 8,
            Fault::SlotsFull(_) => 9,
            Fault::ShelfFull(_) => 10,
            Fault::OwnEditWaits => 11,
            Fault::NumbersUsedUp => 12,
            Fault::IndexTooLarge => 13,
            Fault::ChannelFull(_) => 14,
            Fault::WrongSize => 15,
            Fault::LogHead(_) => 16,
            Fault::StillWaiting(_) => 17,
            Fault::OutsideLimits => 18,
        }
    }

    /// The layer that refused.
    pub fn layer(self) -> Layer
        ensures { result ≡ layer_of self }
    {
        match self {
            Fault::Extent(_)
            | Fault::Mark(_)
            | Fault::Numbering(_)
            | Fault::Pairs(_)
            | Fault::Reference(_)
            | Fault::Element(_)
            | Fault::RunLength(_) => Layer::Format,
            Fault::RosterFull(_)
            | Fault::SlotsFull(_)
            | Fault::ShelfFull(_)
            | Fault::OwnEditWaits
            | Fault::NumbersUsedUp
            | Fault::IndexTooLarge => Layer::Replica,
            Fault::ChannelFull(_) => Layer::Channel,
            Fault::LogHead(_) | Fault::StillWaiting(_) => Layer::Merge,
            Fault::NoMemory | Fault::WrongSize | Fault::OutsideLimits => Layer::Caller,
        }
    }

    /// What the refusal points at.
    pub fn spot(self) -> Spot
        ensures { result ≡ spot_of self }
    {
        match self {
            Fault::Extent(at)
            | Fault::Mark(at)
            | Fault::Numbering(at)
            | Fault::Pairs(at)
            | Fault::Reference(at)
            | Fault::Element(at)
            | Fault::RunLength(at)
            | Fault::ChannelFull(at)
            | Fault::LogHead(at) => Spot::Number(at),
            Fault::RosterFull(id)
            | Fault::SlotsFull(id)
            | Fault::ShelfFull(id)
            | Fault::StillWaiting(id) => { Spot::Edit(id) }
            _ => Spot::Number(0),
        }
    }

    /// The line that a program prints of the refusal: `fault`, number, layer and spot.
    pub fn line(self, heap: Global) -> Result<String, AllocError>
        ensures { IfOk result (λ s. string_bytes s ≡ fault_line self) }
    {
        format!(in heap; "{self}\n")
    }
}

impl Layer {
    /// The word that is printed for the layer.
    pub fn word(self) -> &'static str
        ensures { result.now ≡ word_of self }
    {
        match self {
            Layer::Format => "format",
            Layer::Replica => "replica",
            Layer::Channel => "channel",
            Layer::Merge => "merge",
            Layer::Caller => "caller",
        }
    }
}

// `Display` says the same; the name is there for callers.
impl Spot {
    /// What is printed for the spot: a number, or an identifier as `2.1`.
    pub fn text(self, heap: Global) -> Result<String, AllocError>
        ensures { IfOk result (λ s. string_bytes s ≡ spot_text self) }
    {
        self.to_string(heap)
    }
}

impl fmt::Display for Fault {
    ghost output = { λ x. Some (fault_text x) };

    fn fmt<W: fmt::Write>(&self, f: &mut fmt::Formatter<W>) -> fmt::Result {
        let number = self.number();
        let layer = self.layer();
        let spot = self.spot();
        write!(f, "fault {number} {layer} {spot}")
    }
}

impl fmt::Display for Layer {
    ghost output = { λ x. Some (word_of x) };

    fn fmt<W: fmt::Write>(&self, f: &mut fmt::Formatter<W>) -> fmt::Result {
        f.write_str(self.word())
    }
}

impl fmt::Display for Spot {
    ghost output = { λ x. Some (spot_text x) };

    fn fmt<W: fmt::Write>(&self, f: &mut fmt::Formatter<W>) -> fmt::Result {
        match self {
            Spot::Number(at) => write!(f, "{at}"),
            Spot::Edit(id) => write!(f, "{id}"),
        }
    }
}

impl Error for Fault {}

impl From<AllocError> for Fault {
    ghost from_gives = { λ _ r. r ≡ NoMemory };

    fn from(_e: AllocError) -> Fault {
        Fault::NoMemory
    }
}
