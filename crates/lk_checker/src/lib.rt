//! The state of the checker of types and faults, and what one node of a source changes of it once its parts
//! are walked (C99 6.5, 6.7.2 to 6.7.6).
//!
//! Each method keeps the least fault of those that hold at its node, and leaves a state that is sound.
#![tactic(auto)]

mod checker;
mod declaring;
mod defining;
mod elements;
mod enumerators;
mod keeping;
mod member_rules;
mod names;
mod naming;
mod passed;
mod recording;
mod roles;
mod scoping;
mod settle;
mod shapes;
mod state;

pub use checker::{Checked, Checker, Outside};
pub use defining::BegunStruct;
pub use enumerators::ItemFound;
