//! What can come after a control point, which points can come again, and which may
//! be performed more than once.
#![tactic(auto)]

mod again;
mod found;
mod graph;
mod loops;
mod order;
mod reach;
mod search;
mod single;
mod steps;
mod walk;

pub use again::many;
pub use graph::Graph;
pub use loops::cycles;
pub use order::{all_functions, in_order, in_order_of};
pub use reach::after;
pub use single::linear;
