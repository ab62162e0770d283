//! Logs merged into one table.
#![tactic(auto)]

mod gathering;
mod merge;
mod settling;
mod showing;
mod tables;

pub use gathering::LONGEST_INPUT;
pub use merge::{Gathering, Merge, Settled, State, Unsettled};
pub use tables::merged;
