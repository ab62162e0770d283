//! The formats.

/// The formats that logs are written in, format 6 and format 7.
#[derive(Clone, Copy, PartialEq, Eq, Debug)]
pub enum Format {
    Six,
    Seven,
}
