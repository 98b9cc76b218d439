//! What the definitions of the analysis imply, of which its soundness makes use: laws of the rules for races,
//! and of labels, edges and paths.
#![tactic(auto)]

mod flow;
mod laws;
mod paths;

pub use flow::{
    contents, edges_join_alike, edges_join_labels, functions_have_one_code, functions_have_sites,
    no_edge_ends_at_an_origin, rows_give_edges, walks_go_inside,
};
pub use laws::{
    callees_lock_is_not_kept, guard_is_in_lock_sets, held_is_never_not_held, lock_sets_are_exact,
    nothing_is_held_at_entries, races_come_in_pairs, released_is_not_held, suspect_stays_unguarded,
    verdict_is_one, verdicts_are_one,
};
pub use paths::{
    exact_flow_is_closed, flow_is_closed, flow_is_least, level_is_closed, level_is_least,
    over_calls, over_values, rise_and_fall_are_their_rules, up_and_down,
};
