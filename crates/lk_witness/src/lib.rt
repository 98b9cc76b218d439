//! Schedules that show races: for each suspect location a run of the program is looked for that comes to a race at it.
#![tactic(auto)]

mod choosing;
mod dice;
mod running;
mod searching;
mod shortening;
mod showing;
mod telling;
mod words;

pub use searching::Search;
pub use telling::{Searched, search};
