//! Whether sources make one program: the first clash of names or types between them, whether one has a
//! `main`, and which of their structs are one.
#![tactic(auto)]

mod absent;
mod again;
mod clash;
mod compare;
mod differ;
mod first;
mod groups;
mod laws;
mod leasts;
mod library;
mod library_types;
mod missing;
mod names;
mod pairs;
mod place;
mod side;
mod sites;
mod sources;
mod structs;
mod tags;

pub use absent::not_defined;
pub use again::defined_twice;
pub use clash::{Clash, first_told};
pub use differ::types_differ;
pub use first::first_clash;
pub use laws::typed_units_are_sources;
pub use library::library_differs;
pub use missing::missing_inside;
pub use names::Names;
pub use place::{SizeRule, StructOf, StructPair, TypeOf};
pub use sources::{has_main, is_defined};
pub use structs::{are_declared_alike, have_no_difference};
pub use tags::resolve;
