//! Soundness over all interleavings: what each state that a program comes to has to
//! do with its labels and edges.
#![tactic(auto)]

mod laws;
mod stepping;

pub use laws::{
    cells_are_sound, reached_is_sound, right_changes_keep, start_is_sound, steps_keep_sound,
};
pub use stepping::step;
