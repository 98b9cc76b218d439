//! The one top call of `lsrace`: from the words of a command to its report.
#![tactic(auto)]

mod analysis;
mod answer;
mod errand;
mod ordering;
mod playing;
mod status;
mod texts;
mod top;

pub use top::run;
