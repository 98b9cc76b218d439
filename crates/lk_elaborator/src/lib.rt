//! What typed trees are made of: what the checker found at the nodes of a source, the types, functions,
//! objects and locals so far, and what stands for an operand (C99 6.5).
//!
//! `Err` comes for want of memory, and where what each source without a fault has isn't there (`nowhere`).
#![tactic(auto)]

mod elaborator;
mod entities;
mod forms;
mod found;
mod locals;
mod members;
mod parts;
mod source_types;
mod type_numbers;
mod unreached;
mod values;

pub use elaborator::Elaborator;
pub use entities::{Entities, NamedEntity};
pub use forms::{One, OneForm, Three, Two, TwoForm, form_of_one, form_of_two};
pub use found::{
    called_at, constant_at, found_of, holds_sizeof, meant_at, node_type_at, type_named_at,
    typing_at, value_at,
};
pub use locals::{Locals, put_local};
pub use members::{number_behind, number_of};
pub use parts::{
    Part, converted_operand, given_part, itself_part, operand_part, value_as, value_of,
};
pub use source_types::SourceTypes;
pub use type_numbers::{known, known_type, listed};
pub use unreached::nowhere;
pub use values::{converted, made_node, value_node};
