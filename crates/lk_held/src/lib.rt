//! Which locks are held at each control point, and which each function returns with and may release.
#![tactic(auto)]

mod acts;
mod adding;
mod calls;
mod holding;
mod keeping;
mod lock_sets;
mod releasing;
mod states;

pub use lock_sets::held;
