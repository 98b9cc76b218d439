//! Right pointers: what is stored flows, by the labels and edges of a program, to what holds it.
#![tactic(auto)]

mod laws;

pub use laws::changes_are_right;
