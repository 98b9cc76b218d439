//! The typed nodes of expressions, made of the tree and of what the checker found at its nodes (C99 6.5).
#![tactic(auto)]

mod allocations;
mod arguments;
mod calls;
mod casts;
mod expressions;
mod library;
mod literals;
mod names;
mod one_operand;
mod operands;
mod operators;
mod places;
mod sides;
mod sizes;
mod two_operands;
mod ways;
mod without_operands;

pub use expressions::{expression, given_value};
pub use operands::promoted_type;
