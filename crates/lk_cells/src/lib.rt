//! What the memory of a running program holds, and what values come to: the cells of objects, the frames of
//! threads, pointers that move and are followed, operators and conversions (C99 6.2.4, 6.2.5, 6.3, 6.5;
//! POSIX Base Definitions 4.11).
#![tactic(auto)]

mod computing;
mod converting;
mod kind;
mod moves;
mod object;
mod operands;
mod parts;
mod places;
mod state;

pub use computing::{Computed, binary, unary_of};
pub use converting::converted_to;
pub use kind::CellKind;
pub use moves::{is_same_place, moved, newer};
pub use object::{Initial, Object, int_kind, kind_of, number_of_type, zero_of};
pub use operands::{
    all_given, all_used, condition_in, current, function_in, given, id_in, number_in, operand,
    pointer_in, used,
};
pub use parts::{Elements, elements_of, form_of, part_at, type_along};
pub use places::{
    condition_through, element_of, followed, form_through, is_condition_unready, is_not_of,
    is_taken, is_unready, kind_through, moved_by, mutex_through, object_at, part_of, value_through,
};
pub use state::{Frame, Local, State, Thread};
