//! A replica: one copy of the document, with what it has applied and what waits.
#![tactic(auto)]

mod asking;
mod replica;
mod roster;
mod shelf;
mod taking;
mod verdict;

pub use replica::{Replica, Taken};
