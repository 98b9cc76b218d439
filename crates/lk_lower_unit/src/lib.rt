//! The control points of sources, and the numbers that they get.
#![tactic(auto)]

mod bases;
mod counts;
mod fault;
mod nodes;
mod place;
mod points;
mod programs;
mod standing;
mod static_object;
mod unit;

pub use bases::{Bases, bases_of};
pub use counts::counts_of;
pub use fault::CountFault;
pub use nodes::Nodes;
pub use points::number_points;
pub use programs::lower;
pub use standing::StandingStep;
pub use static_object::push_static;
pub use unit::UnitLowering;
