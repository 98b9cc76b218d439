//! Expressions, specifiers, declarators and type names from tokens.
#![tactic(auto)]

mod cursor;
mod declarator;
mod expression;
mod found;
mod front;
mod laws;
mod member;
mod naming;
mod reading;
mod specifier;
mod types;
mod words;

pub use cursor::Cursor;
pub use found::Found;
pub use front::begins_expr;
pub use laws::exact_readers;
pub use naming::{Head, Naming};
pub use reading::{read_declarator, read_expr, read_specifiers, read_type_name};
