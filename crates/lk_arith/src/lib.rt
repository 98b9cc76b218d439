//! The arithmetic of C on its integer kinds: what each operator gives, where it is
//! undefined, and the conversions.
#![tactic(auto)]

mod arithmetic;
mod conversions;
mod kinds;
mod operators;

pub use arithmetic::{arith, outcome, unary, unary_outcome};
pub use conversions::{convert, promoted, usual};
pub use kinds::{bytes_of, greatest, is_signed, is_value, least, width};
pub use operators::{Op, UnaryOp, Undefined};
