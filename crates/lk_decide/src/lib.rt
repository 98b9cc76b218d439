//! What the action of a control point needs: why it is undefined, and whether it waits.
#![tactic(auto)]

mod accesses;
mod frames;
mod locks;
mod operators;
mod roots;
mod threads;
mod undefined;
mod waiting;

pub use undefined::cause;
pub use waiting::waits;
