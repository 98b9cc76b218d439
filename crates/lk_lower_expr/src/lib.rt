//! The control points of expressions, as steps of nodes of the typed tree.
#![tactic(auto)]

mod assign;
mod begin;
mod call;
mod cells;
mod change;
mod compute;
mod convert;
mod decide;
mod goals;
mod layout;
mod library;
mod lowering;
mod make;
mod names;
mod own;
mod print;
mod step;
mod value;
mod walk;

pub use cells::cell_node;
pub use goals::{Goals, Labelled};
pub use layout::lay;
pub use lowering::Lowering;
pub use names::{LocalNames, SourceNames};
pub use step::{Deed, NamedStep, Step};
