//! Matched paths: which labels stand in Level, and the summary edges over them.
#![tactic(auto)]

mod level;
mod order;
mod passage;
mod summary;

pub use level::levels;
pub use order::in_order;
pub use passage::{Passage, Side, of_site, passages};
pub use summary::{SummaryEdge, summaries};
