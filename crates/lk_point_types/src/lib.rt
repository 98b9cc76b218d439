//! Tests at run time, after lowering, that operands, slots, parameters and results have the types that their
//! actions need.
#![tactic(auto)]

mod actions;
mod calls;
mod cells;
mod conversions;
mod fills;
mod forms;
mod functions;
mod objects;
mod operators;
mod program;
mod readers;
mod roots;

pub use program::have_types;
