//! The guard on the reading offset.
ghost use Rattle.std.specs.Prelude.{◌≡◌, unwrap_or};

// A guard, since the offset is the caller's own number and goes back on every way out but one.
/// Holds the caller's offset while a record is read.
pub(crate) struct Guard<'a> {
    pub(crate) at: &'a mut usize,
    /// Where the offset goes back to; none once the record is accepted.
    pub(crate) back_to: Option<usize>,
}

impl Drop for Guard<'_> {
    /// Puts the offset back.
    fn drop(self)
        ensures { self.exit.0.now ≡ unwrap_or self.entry.back_to self.entry.at.now }
    {
        let Guard { at, back_to } = self;
        if let Some(mark) = back_to {
            *at = mark;
        }
    }
}
