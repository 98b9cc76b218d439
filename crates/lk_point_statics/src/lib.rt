//! Tests at run time, after lowering, that each cell with which static storage begins is there and may begin
//! with its value, and that a point writes each pointer.
#![tactic(auto)]

mod addresses;
mod beginnings;
mod parts;
mod statics;
mod wanted;
mod writes;

pub use statics::are_statics;
