//! The document in memory: a Fugue tree as linked nodes in one `Vec`, listed in reading order.
#![tactic(auto)]

mod asking;
mod growing;
mod index;
mod link;
mod links;
mod node;
mod reading;
mod tree;
mod walk;

pub use node::Entry;
pub use reading::Reading;
pub use tree::{MOST_SLOTS, Tree};
