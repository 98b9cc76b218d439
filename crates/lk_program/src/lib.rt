//! From accepted sources to the linked program: the typed tree of each is made, and these are put together.
#![tactic(auto)]

mod program;
mod trees;

pub use program::{Program, program_of};
