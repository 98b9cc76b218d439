//! The words of a command line, read by `clap`.
#![tactic(auto)]

mod reading;
mod task;
mod words;

pub use task::{Command, Task, WordsFault};
pub use words::command;
