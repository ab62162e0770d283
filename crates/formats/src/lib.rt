//! Formats: the records of edits, read from bytes.
#![tactic(auto)]

mod clock;
mod element;
mod expanding;
mod fields;
mod format;
mod guard;
mod marks;
mod reader;
mod reading;
mod record;

pub use format::Format;
pub use marks::head_at;
pub use reading::read_record;
pub use record::Record;
