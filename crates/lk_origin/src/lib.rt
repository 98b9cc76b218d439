//! Which origins may flow to which labels, and what crosses each site.
#![tactic(auto)]

mod arrows;
mod crossing;
mod flow;
mod inflow;
mod taking;

pub use flow::origins;
