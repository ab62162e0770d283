//! Edits: what names them, the clocks that they carry, the rules that they keep; and the one fault type of all layers.
#![tactic(auto)]

mod clock;
mod edit;
mod fault;
mod id;
mod making;
mod pairs;

pub use clock::{Clock, Pair};
pub use edit::{Edit, Parent, Placement, Removal, Side, Stamp};
pub use fault::{Fault, Layer, Spot};
pub use id::Id;
pub use making::{own_kept, parent_kept};
pub use pairs::{count_among, place_among};
