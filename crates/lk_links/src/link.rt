//! One way from a point into a function.

use lk_facts::Way;

/// A way from a point into a function: a call or creation, or one of the functions that a
/// call through a pointer may run.
#[derive(Clone, Copy)]
pub struct Link {
    /// The point.
    pub point: u32,
    /// The function that the point is a step of.
    pub above: u32,
    /// The function that it goes into.
    pub below: u32,
    /// The way into it.
    pub way: Way,
    /// Whether it starts a thread there.
    pub starts: bool,
}
