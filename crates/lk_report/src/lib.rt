//! The text of the report, and how locations, lock places and places of sources are written in it.
#![tactic(auto)]

mod lines;
mod names;
mod order;

pub use lines::report;
pub use names::{place_of, text_of};
