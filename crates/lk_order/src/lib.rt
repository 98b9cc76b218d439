//! The order in which a program locks its mutexes, and whether it excludes that threads wait for one
//! another in a circle.
#![tactic(auto)]

mod acquiring;
mod acts;
mod dropping;
mod finding;
mod giving;
mod into;
mod order;
mod pairing;
mod ranks;
mod same;
mod sets;
mod states;
mod text;
mod up;
mod wanting;

pub use finding::lock_order;
pub use order::{Order, Pair};
pub use text::order_text;
