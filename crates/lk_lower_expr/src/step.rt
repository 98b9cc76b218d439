//! Control points before they have numbers.

use lk_base::{Seq, Spot};
use lk_facts::Action;
use lk_types::TypeId;

/// A step of a node of the typed tree.
#[derive(Drop)]
pub struct Step {
    /// What it does. Its operands are the numbers of points.
    pub does: Action,
    /// The type of its value, where it gives one.
    pub gives: Option<TypeId>,
    /// The points at which control goes on.
    pub next: Seq<u32>,
    /// The place at which it stands.
    pub spot: Spot,
}

/// A step of a declared name before it has a number.
#[derive(Drop)]
pub struct Deed {
    /// What it does.
    pub does: Action,
    /// The type of its value, where it gives one.
    pub gives: Option<TypeId>,
    /// The point at which control comes to it, unless that is the step itself.
    pub comes: Option<u32>,
}

/// A step with its name.
#[derive(Drop)]
pub struct NamedStep {
    /// The number of its node.
    pub node: u32,
    /// Its number among the steps of the node, from 0 on.
    pub step: u32,
    pub is: Step,
}
