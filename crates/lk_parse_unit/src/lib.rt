//! Statements and units from tokens.
#![tactic(auto)]

mod begin;
mod laws;
mod lead;
mod parse;
mod statement;
mod unit;

pub use laws::one_tree;
pub use parse::{Parsed, parse_unit};
