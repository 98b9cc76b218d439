//! The ordinals of a tree: a walk numbers each node where it stands, before the nodes inside it, and
//! those in the order of the text.
#![tactic(auto)]

mod declaration;
mod expression;
mod next;
mod statement;
mod unit;

pub use unit::number_unit;
