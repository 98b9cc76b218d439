//! Where the nodes and the faults of a source stand.
#![tactic(auto)]

mod laws;

pub use laws::{
    faults_stand_at_tokens, faults_stand_in_files, nodes_hold_places_of_tokens,
    nodes_stand_at_tokens, nodes_stand_in_files, trees_stand_at_tokens,
    typed_trees_stand_at_tokens, typed_trees_stand_in_files,
};
