//! Values of a program that runs: numbers, pointers to parts of objects, thread ids, the states
//! of mutexes and condition variables, and why a step is undefined (C99 3.4.3, 3.17, 6.2.5;
//! POSIX Base Definitions 4.11).
#![tactic(auto)]

mod cell;
mod path;
mod table;
mod value;
mod why;

pub use cell::{Cell, Pointer};
pub use path::Path;
pub use table::{Table, put_both};
pub use value::{Condition, Mutex, Value};
pub use why::{Why, either};
