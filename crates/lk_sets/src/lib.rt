//! Sets of numbers, relations as rows of bits, and what loops that close a relation share.
#![tactic(auto)]

mod bit_rows;
mod bits;
mod id_set;
mod spread;
mod spread_marked;

pub use bit_rows::{BitRows, Row, rows_are_their_pairs};
pub use id_set::{IdSet, a_set_has_one_list};
pub use spread::Arrow;
