//! Where the points and the roots of a program stand.
#![tactic(auto)]

mod laws;

pub use laws::points_stand_in_files;
