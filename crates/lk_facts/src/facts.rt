//! What is known of a program: its points, its labels, and which origins may flow where.
ghost use Rattle.std.specs.Prelude.{◌≡◌, ◌<◌, ◌↔◌, IsTrue, length};
ghost use Rattle.lk_facts.specs.Facts.{facts_of, AreFacts, IsLabelOf};

use crate::edge::Label;
use crate::labels::Labels;
use crate::origins::Origins;
use crate::points::Points;
use std::marker::Model;

/// What is known of a program, as it is handed on: its points, its labels, and which origins
/// may flow where. They speak of the same points and labels, and an origin that is a lock is
/// exactly the label of a lock place.
#[derive(Drop)]
pub struct Facts<'a> {
    points: &'a Points,
    labels: &'a Labels,
    origins: &'a Origins,
}

impl<'a> Model for Facts<'a> {
    ghost use Rattle.lk_facts.specs.Facts.{FactTable, facts_of, AreFacts};

    ghost Value = { FactTable };

    ghost view = { λ a. facts_of a.points.now a.labels.now a.origins.now };

    ghost invariant = { λ a. AreFacts (facts_of a.points.now a.labels.now a.origins.now) };
}

/// Whether a label is an origin and a lock exactly where it is that of a lock place, and its root is
/// there where it is an origin.
fn label_fits(points: &Points, labels: &Labels, l: Label) -> bool
    requires { l < length labels.now.entries }
    ensures { IsTrue result ↔ IsLabelOf points.now labels.now l }
{
    let is_place = points.locations() <= l.0 && l.0 < points.locations() + points.locks();
    (labels.is_origin(l) && labels.is_lock(l)) == is_place
        && (!labels.is_origin(l) || labels.root(l) < points.roots())
}

impl<'a> Facts<'a> {
    /// Whether the three speak of the same points and labels, as `new` asks.
    pub fn fits(points: &Points, labels: &Labels, origins: &Origins) -> bool
        ensures { IsTrue result ↔ AreFacts (facts_of points.now labels.now origins.now) }
    {
        if labels.points() != points.count() as usize
            || origins.labels() != labels.count()
            || points.locations() + points.locks() > labels.count()
        {
            return false;
        }
        for l in 0..labels.count() {
            if !label_fits(points, labels, Label(l)) {
                return false;
            }
        }
        true
    }

    /// The facts of these three. It takes no memory.
    pub fn new(points: &'a Points, labels: &'a Labels, origins: &'a Origins) -> Facts<'a>
        requires { AreFacts (facts_of points.now labels.now origins.now) }
        ensures { result ≡ facts_of points.now labels.now origins.now }
    {
        Facts {
            points,
            labels,
            origins,
        }
    }

    /// The points.
    pub fn points(&self) -> &Points
        ensures value { result.now ≡ self.now.program }
        ensures agree { AreFacts self.now }
    {
        self.points
    }

    /// The labels.
    pub fn labels(&self) -> &Labels
        ensures value { result.now ≡ self.now.labels }
        ensures agree { AreFacts self.now }
    {
        self.labels
    }

    /// Which origins may flow to which labels.
    pub fn origins(&self) -> &Origins
        ensures value { result.now ≡ self.now.origins }
        ensures agree { AreFacts self.now }
    {
        self.origins
    }
}
