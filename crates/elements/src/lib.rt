//! Elements: what a document is a list of, and the bytes that stand for one.
#![tactic(auto)]

mod cell;
mod cell_kind;
mod character;
mod floats;
mod kind;

pub use cell::Cell;
pub use kind::Kind;
