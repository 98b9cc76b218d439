//! Laws of the rules of C.
#![tactic(auto)]

mod laws;

pub use laws::{
    a_watch_tells_faults, additions_in_any_role, both_are_all_of_a_node,
    codes_are_kept_before_parts, codes_are_kept_behind_parts, codes_are_kept_further,
    codes_are_kept_in_turn, declarators_are_asked, declarators_follow_their_forms,
    definitions_are_asked, expressions_are_asked, expressions_follow_their_rules,
    hidden_codes_are_left_out, hiding_parts_in_turn, items_are_asked, items_follow_their_parts,
    looks_in_any_role, member_declarators_follow_their_forms, members_are_asked,
    members_follow_their_parts, nodes_are_broken_in_turn, nodes_are_kept_further,
    nodes_are_kept_in_turn, nothing_is_kept, nothing_is_kept_of_both, only_initialisers_hide,
    parameters_are_asked, parameters_follow_their_parts, parts_of_specifiers_have_types,
    specifiers_follow_their_forms, the_first_fault_is_kept, the_least_code_is_enough,
    the_lesser_is_kept, type_names_are_asked, type_names_follow_their_parts,
    types_of_parts_in_turn,
};
