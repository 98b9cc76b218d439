//! The steps of a source.

use lk_lower_expr::NamedStep;

/// A step of a source, and the function in which it stands.
#[derive(Drop)]
pub struct StandingStep {
    pub step: NamedStep,
    /// The number of the function. A step of an initialiser of static storage stands in none, which is
    /// written as a number past those of all functions.
    pub function: u32,
}
