//! The nodes of a numbered source are told apart by their numbers, and what is known in the
//! environment of a node stays known.
#![tactic(auto)]

mod laws;

pub use laws::{
    declarators_are_told_apart, declared_names_have_types, defined_names_have_types,
    expressions_are_told_apart, externals_are_told_apart, initialisers_are_told_apart,
    known_structs_stay, lists_are_told_apart, names_are_those_of_declarators, names_are_told_apart,
    nodes_are_told_apart, numbers_are_bounded, numbers_rise_inside, outside_stays,
    parts_are_of_one_node, parts_are_told_apart, parts_have_greater_numbers, sources_are_settled,
    statements_are_told_apart, type_names_are_told_apart, values_are_told_apart,
};
