//! What becomes of an item where it rises from a function to a point that runs or starts it: whether it is a
//! child's there, and which locks it has.
#![tactic(auto)]

mod above;

pub use above::{is_child_above, with_kept};
