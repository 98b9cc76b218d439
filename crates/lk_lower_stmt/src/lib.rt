//! The control points of statements, as steps of nodes of the typed tree.
#![tactic(auto)]

mod body;
mod cells;
mod fill;
mod initial;
mod jump;
mod lowering;
mod make;
mod number;
mod part;
mod statement;
mod switch;
mod text;
mod turns;
mod way;

pub use cells::Cells;
pub use lowering::{BodyLowering, Lowered};
pub use number::numbered;
pub use part::push_value;
pub use way::push_way;
