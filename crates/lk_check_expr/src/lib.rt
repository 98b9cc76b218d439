//! The rules of expressions over operands whose types are known: the first layer of the
//! checker of types and faults.
//!
//! A rule takes the table of types, what is known of the structs, and the typings of the operands; it answers
//! the typing of the whole, or the code that is told. A typing here keeps no address.
#![tactic(auto)]

mod assignments;
mod calls;
mod choices;
mod constants;
mod fields;
mod formats;
mod library;
mod literals;
mod looks;
mod operators;
mod places;
mod signatures;
mod sizes;
mod texts;
mod words;

pub use assignments::{assign, cast, converted, operator_of};
pub use calls::{Argument, call, passing};
pub use choices::{choice, comma};
pub use fields::{arrow, dot};
pub use library::{Asks, LibraryFunction, Parameter, Passing};
pub use literals::{character, number};
pub use looks::Look;
pub use operators::{binary, is_scalar, row_of};
pub use places::{index, prefix, step};
pub use sizes::{is_broken, size_of};
pub use texts::text;
pub use words::{NameUse, is_extern, word};
