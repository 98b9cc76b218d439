//! What is declared by names, in scopes that stand inside one another (C99 6.2.1): the latest one of a
//! name is found in constant time.
#![tactic(auto)]

mod bytes;
mod declarations;
mod named;

pub use declarations::Declarations;
pub use named::Named;
