//! What rises from functions to those that run or start them: the links of calls and creations, and what
//! labels and locks inside a function are outside it.
#![tactic(auto)]

mod link;
mod links;
mod over;
mod sets;

pub use link::Link;
pub use links::Links;
pub use over::{clash, held_as, only_in_row, outside, push_over, risen, rises_as};
pub use sets::has_all;
