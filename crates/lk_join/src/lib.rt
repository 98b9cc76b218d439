//! One program of all sources, or why they make none: one table of types, one list of structs and one of
//! entities, with the place of each source's own in them.
#![tactic(auto)]

mod completing;
mod entities;
mod forms;
mod labels;
mod linking;
mod narrow;
mod numbers;
mod places;
mod struct_set;
mod types;

pub use linking::link;
pub use numbers::{Numbers, number_structs};
