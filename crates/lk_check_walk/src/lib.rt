//! The walk of the checker of types and faults over expressions and what leads back to them: type names,
//! specifiers, declarators, members, enumerators and parameters (C99 6.5, 6.7.2 to 6.7.6).
//!
//! A walk function judges each expression once, in the environment in which it stands, keeps the least fault
//! of those that hold in it, and answers what is found of it.
#![tactic(auto)]

mod arguments;
mod declarators;
mod expressions;
mod items;
mod members;
mod parameters;
mod specifying;
mod type_names;

pub use declarators::declarator;
pub use expressions::judge;
pub use specifying::specifiers;
