//! Trails: how control comes to a frame from the first frame of `main`, through calls and creations of
//! threads; what the rules for locks, items and races say along them.
#![tactic(auto)]

mod laws;

pub use laws::{counts_are_kept, meaning_goes_out, pasts_are_kept};
