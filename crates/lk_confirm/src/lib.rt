//! The one call of `lsrace-witness`: from the words of a command to schedules that show races.
#![tactic(auto)]

mod analysis;
mod answer;
mod texts;
mod top;
mod words;

pub use top::run;
