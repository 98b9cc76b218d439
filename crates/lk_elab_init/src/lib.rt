//! What initialisers give to the parts of an object, in the order of C99 6.7.8, which parts are given
//! nothing, and to what an address constant leads (C99 6.6, 9).
//!
//! `Err` comes for want of memory, and where what each source without a fault has isn't there
//! (`nowhere` of lk_elaborator).
#![tactic(auto)]

mod absent;
mod advancing;
mod givens;
mod named_cells;
mod paths;
mod positions;
mod reached;
mod type_forms;

pub use absent::absent_cells;
pub use givens::{Beginning, PartGiven, put_given};
pub use paths::{longer_path, path_of};
pub use positions::{Anchor, End, Position, Reached};
pub use reached::converted_address;
pub use type_forms::{element_at, is_pointer_at, kind_at};
