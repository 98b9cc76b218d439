//! The edges of a program: along which labels what pointers point to flows.
#![tactic(auto)]

mod actions;
mod all_edges;
mod calls;
mod close;
mod conversions;
mod found;
mod mains;
mod names;
mod rows;

pub use all_edges::edges;
