//! The typed tree of a source without a fault (C99 6.7 to 6.9): names resolved, conversions written
//! out, initialisers part by part.
//!
//! The source was checked before, and what was found at its nodes is kept by their numbers. So a tree is made
//! here by the syntax tree and those records alone.
#![tactic(auto)]

mod beside;
mod cases;
mod declarations;
mod definitions;
mod function_types;
mod labels;
mod local_inits;
mod parameters;
mod statements;
mod static_values;
mod statics;
mod unit;

pub use unit::elaborate;
