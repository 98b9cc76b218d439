//! The sources of a command, from the shelf to checked trees.
#![tactic(auto)]

mod accepting;
mod checking;
mod externs;
mod fault;
mod laws;
mod numbers;
mod reading;
mod splitting;
mod trees;

pub use accepting::{Accepted, accept, listed_names};
pub use checking::AcceptedSource;
pub use fault::{SourcesFault, refused_at, refused_in};
pub use laws::{commands_are_in_bounds, one_reading, one_result};
pub use reading::{Source, Texts, read};
