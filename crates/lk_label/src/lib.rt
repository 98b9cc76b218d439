//! The labels of a program: what its pointers may point to, level by level.
#![tactic(auto)]

mod all_labels;
mod entries;
mod fault;
mod gather;
mod holder_set;
mod holders;
mod kinds;
mod named;
mod names;
mod nodes;
mod order;
mod parts;
mod targets;
mod walk;
mod within;

pub use all_labels::labels;
pub use fault::LabelFault;
pub use holders::all_holders;
pub use kinds::{holder_type, is_global_holder};
pub use named::named_nodes;
pub use names::Names;
pub use nodes::Nodes;
pub use parts::{field_count, is_function, parts_in_order};
pub use walk::walk_nodes;
