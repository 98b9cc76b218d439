//! The births of objects, frames and threads, and the first state of a program
//! (C99 5.1.2.2.1, 6.2.4, 6.7.8, 6.9.1).
#![tactic(auto)]

mod births;
mod starting;

pub use births::{Made, locals_of, made_for, new_thread, type_of_root};
pub use starting::start;
