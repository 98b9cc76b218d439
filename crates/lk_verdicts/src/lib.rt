//! What the racing accesses of a program say of each of its locations.
#![tactic(auto)]

mod judging;

pub use judging::verdicts;
