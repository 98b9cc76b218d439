//! Which accesses race.
#![tactic(auto)]

mod bases;
mod grounds;
mod pairs;
mod places;
mod racing;

pub use racing::conflicts;
