//! Where the items of points come from.

use crate::way::Way;

/// Where an item of a point comes from.
#[derive(Clone, Copy, PartialEq, Eq)]
pub enum Source {
    /// It is the point's own access.
    OwnAccess,
    /// It is an item of a function that the point runs or starts.
    ItemBelow {
        /// The way into the function.
        way: Way,
        /// The function.
        function: u32,
        /// Whether the function's item is a child item.
        child: bool,
        /// The label of what is accessed, as the function names it.
        subject: u32,
    },
}
