//! The two-byte marks that stand before records and logs.
ghost use Rattle.std.specs.Prelude.{◌≡◌};
ghost use Rattle.formats.specs.Marks.{has_runs, head_at};

use crate::format::Format;

/// Stands before an insertion.
pub(crate) const INSERTION: &[u8; 2] = b"IN";

/// Stands before a deletion.
pub(crate) const DELETION: &[u8; 2] = b"DE";

/// Stands before a run, in format 7.
pub(crate) const RUN: &[u8; 2] = b"RU";

/// Begins a log in format 6.
pub(crate) const LOG_SIX: &[u8; 2] = b"L6";

/// Begins a log in format 7.
pub(crate) const LOG_SEVEN: &[u8; 2] = b"L7";

impl Format {
    /// Whether the format has records that stand for several insertions.
    pub fn has_runs(self) -> bool
        ensures { result ≡ has_runs self }
    {
        matches!(self, Format::Seven)
    }
}

/// The format of the log that begins at the offset; none where no log does.
pub fn head_at(input: &[u8], at: usize) -> Option<Format>
    ensures { result ≡ head_at input.now at }
{
    match input.get(at..)?.first_chunk()? {
        LOG_SIX => Some(Format::Six),
        LOG_SEVEN => Some(Format::Seven),
        _ => None,
    }
}
