//! No thread waits in a circle where the mutexes of a program have an order.
#![tactic(auto)]

mod laws;

pub use laws::{order_excludes_circles, ordered_has_no_circle};
