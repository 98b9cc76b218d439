//! Plays: one run of a program, by a schedule of its threads, and what it comes to.
#![tactic(auto)]

mod laws;
mod lines;
mod playing;
mod races;
mod running;
mod schedules;

pub use laws::schedules_are_one;
pub use lines::{Ending, Line};
pub use playing::{Played, play};
pub use schedules::{ScheduleFault, Turn, schedule};
