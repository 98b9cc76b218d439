//! What reads specifiers, declarators and what stands in them.

use std::alloc::Global;

/// What reads specifiers and declarators, with the readers of what stands inside them handed in, so that each
/// form is proved by itself.
#[derive(Clone, Copy)]
pub struct Types<E, D, M, I> {
    pub alloc: Global,
    /// How many levels there are inside the node that is read.
    pub depth: usize,
    pub expr: E,
    pub declarator: D,
    pub member: M,
    pub item: I,
}
