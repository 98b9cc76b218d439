//! What points do to locks, as the facts of a program say it.
ghost use Rattle.std.specs.Prelude.{◌≡◌, ◌<◌, length, IfSome};

use lk_facts::{Effect, Facts, Label, Labels, Points};
use lk_links::Links;

/// The facts of a program, its points and labels among them, and the links of its points.
#[derive(Drop)]
pub(crate) struct Acts<'a, 'b> {
    /// The facts.
    pub facts: &'a Facts<'b>,
    /// The points.
    pub points: &'a Points,
    /// The labels.
    pub labels: &'a Labels,
    /// The links of the points.
    pub links: &'a Links,
    ghost same_points: { points.now ≡ facts.now.program },
    ghost same_labels: { labels.now ≡ facts.now.labels },
}

impl Acts<'_, '_> {
    ghost use Rattle.lk_held.specs.Acts.{IsTaken, IsFreed, basis_in};

    /// The label of the mutex that a point takes, where it is live and takes one.
    pub(crate) fn takes(&self, point: u32) -> Option<Label>
        requires { point < length self.now.points.now.points }
        ensures value { IsTaken (basis_in self.now) point result }
        ensures in_range { IfSome result (λ x. x < length self.now.labels.now.entries) }
    {
        if !self.points.live(point) {
            return None;
        }
        match self.points.effect(point) {
            Effect::Takes(mutex) => self.labels.target(mutex),
            Effect::Nothing
            | Effect::Reads(_)
            | Effect::Writes(_)
            | Effect::Frees(_)
            | Effect::Runs(_)
            | Effect::RunsThrough(_)
            | Effect::Starts(_) => None,
        }
    }

    /// The label of the mutex that a point frees, where it is live and frees one.
    pub(crate) fn frees(&self, point: u32) -> Option<Label>
        requires { point < length self.now.points.now.points }
        ensures value { IsFreed (basis_in self.now) point result }
        ensures in_range { IfSome result (λ x. x < length self.now.labels.now.entries) }
    {
        if !self.points.live(point) {
            return None;
        }
        match self.points.effect(point) {
            Effect::Frees(mutex) => self.labels.target(mutex),
            Effect::Nothing
            | Effect::Reads(_)
            | Effect::Writes(_)
            | Effect::Takes(_)
            | Effect::Runs(_)
            | Effect::RunsThrough(_)
            | Effect::Starts(_) => None,
        }
    }
}
