//! Ways into functions.

use crate::edge::Site;

/// A way into a function.
#[derive(Clone, Copy, PartialEq, Eq)]
pub enum Way {
    /// By a call or creation of the function, whose site it is.
    Through(Site),
    /// By a pointer to the function, as a value that has its own site.
    AsValue(Site),
}
