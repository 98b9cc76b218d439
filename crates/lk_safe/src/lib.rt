//! Soundness of locks and races: what threads own, in each state that a program comes
//! to, and which accesses race.
#![tactic(auto)]

mod laws;
mod stepping;

pub use laws::{
    linear_is_one, locks_are_held, races_are_found, races_are_suspect, reached_is_safe,
    start_is_safe, steps_keep_safe, steps_move_owners, steps_move_trails, verdicts_are_safe,
    verdicts_find_races,
};
pub use stepping::step;
