//! What rises from functions to those that run or start them: accesses, with the locks that are held at them.
#![tactic(auto)]

mod accesses;
mod conflicts;
mod correlations;
mod groups;
mod items;
mod links;
mod passing;
mod point_items;
mod rising;

pub use accesses::accessed;
pub use conflicts::{Conflicts, RaceItem};
pub use correlations::{Correlation, Correlations};
pub use groups::Groups;
pub use items::{Item, Items};
pub use point_items::{ItemAt, PointItems};
pub use rising::{Subjects, fits, rise};
