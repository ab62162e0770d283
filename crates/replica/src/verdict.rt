//! What becomes of an edit that is taken in.

/// What the tests in turn come to, unless one of them refuses the edit.
#[derive(Clone, Copy)]
pub enum Verdict {
    /// It was applied before, or waits already.
    Knows,
    /// It is ready.
    Applies,
    /// It waits for others.
    Shelves,
}
