//! Tests at run time, after lowering, that operands and successors stand in their function, that each action
//! goes on as it must, and that waits take their mutex again.
#![tactic(auto)]

mod actions;
mod ends;
mod going;
mod keep;
mod naming;
mod standing;
mod waiting;

pub use keep::keep_ways;
