//! Cases of whole programs: how a list of them is read, and where an answer differs
//! from the one that is expected.
#![tactic(auto)]

mod case;
mod texts;

pub use crate::case::{Case, Limits, is_case, parse_case};
pub use crate::texts::differing_line;
