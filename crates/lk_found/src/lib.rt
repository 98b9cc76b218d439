//! What is found of the nodes of a source and recorded of them while types and faults are checked, and what
//! the rules say of what was found (C99 6.5, 6.7.2 to 6.7.6).
//!
//! Nothing here knows the state of the checker: its walk gathers these values and asks these functions.
#![tactic(auto)]

mod addresses;
mod arguments;
mod by_number;
mod declarators;
mod fields;
mod found;
mod gathered;
mod laws;
mod layers;
mod looks;
mod names;
mod parameters;
mod recording;
mod records;
mod roles;
mod ruled;
mod shapes;
mod tagged;
mod walked;

pub use addresses::{Address, Place, is_address, value_address, whole};
pub use arguments::{Given, call_ruled, passed, stands_for};
pub use declarators::{
    Asked, DeclaratorFound, DeclaredName, at_declarator, declared_name, large_code, size_by,
};
pub use fields::MembersFound;
pub use found::{At, Found, Stands, TypeFound};
pub use gathered::{Breach, Gathered, Specified};
pub use laws::types_follow_forms;
pub use layers::{Element, Layer, Made, made_by};
pub use looks::{look_of_call, look_of_cast, look_of_one, look_of_three, look_of_two};
pub use names::{is_told_with_name, word_ruled};
pub use parameters::{Listed, ParameterFound, ParametersFound, is_lone};
pub use recording::{meant_by, taken, word};
pub use records::{DeclaredHere, InitialiserKind, Meant, NamesIn, Records};
pub use roles::{in_cast, role_in_parentheses, role_in_prefix, role_on_right};
pub use ruled::{
    Ruled, arrow_ruled, assign_ruled, binary_ruled, cast_ruled, choice_ruled, comma_ruled,
    dot_ruled, index_ruled, paren_ruled, prefix_ruled, sizeof_expr_ruled, sizeof_type_ruled,
    step_ruled,
};
pub use shapes::{LayerAt, Left, both, either};
pub use tagged::{admits, enum_breach, known_struct, tag_breach};
pub use walked::{SizeFound, Walked};
