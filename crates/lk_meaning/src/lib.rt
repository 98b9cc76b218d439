//! The meaning of a program: its states, its steps and its runs (C99 5.1.2.3; POSIX Base Definitions 4.11).
#![tactic(auto)]

mod applying;
mod changing;
mod deciding;
mod laws;
mod locating;
mod stepping;
mod touching;

pub use deciding::{Decision, decide};
pub use laws::{
    each_thread_has_one_fate, ended_stay_ended, first_states_are_reached, other_cells_are_kept,
    owners_are_kept, steps_reach,
};
pub use locating::location;
pub use stepping::{Event, Next, Stepped, step};
pub use touching::{Touched, touch};
