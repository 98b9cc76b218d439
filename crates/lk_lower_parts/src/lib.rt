//! What a program has besides its points: functions, roots, slots, places, sites, and
//! what its storage begins with.
#![tactic(auto)]

mod counts;
mod fault;
mod functions;
mod gather;
mod initials;
mod names;
mod numbers;
mod order;
mod owned;
mod parts;
mod places;
mod roots;
mod sites;
mod start;
mod text;
mod types;

pub use counts::{FunctionNumbers, number_functions};
pub use fault::LowerFault;
pub use gather::number_roots_and_slots;
pub use names::Given;
pub use numbers::Numbered;
pub use parts::void_parts;
pub use places::{AllPlaces, all_places};
pub use sites::give_sites;
pub use start::{Main, main_of, main_spot};
pub use types::pointer_rows;
