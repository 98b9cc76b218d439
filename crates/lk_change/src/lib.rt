//! What the action of a control point changes, where no cause makes it undefined and it doesn't wait.
#![tactic(auto)]

mod accesses;
mod acts;
mod births;
mod calls;
mod change;
mod copies;
mod fills;
mod going;
mod locks;
mod numbers;
mod pointers;
mod threads;

pub use acts::change_of;
pub use change::{Birth, Call, Change, Effect, Going, Turn};
