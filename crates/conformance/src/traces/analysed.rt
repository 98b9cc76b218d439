//! Programs, and what the analysis knows of them.
ghost use Rattle.lk_facts.specs.LabelRules.{AreLabels};

use lk_base::NoMemory;
use lk_facts::{Label, Labels, Origins, Points};
use lk_flow::edges;
use lk_label::labels;
use lk_match::levels;
use lk_origin::origins;
use std::alloc::Global;

/// A program, its labels, and which origins may flow to them.
#[derive(Drop)]
pub(crate) struct Analysed {
    /// The points of the program.
    pub(crate) points: Points,
    labels: Labels,
    origins: Origins,
}

/// Which origins may flow to which labels of a program.
fn flow(alloc: Global, points: &Points, labels: &Labels) -> Result<Origins, NoMemory>
    requires { AreLabels points.now labels.now }
{
    let edges = edges(alloc, points, labels)?;
    let levels = levels(alloc, &edges, labels)?;
    let origins = origins(alloc, &edges, &levels, labels)?;
    Ok(origins)
}

/// The program of these points with what the analysis knows of it, or none where it has no labels.
pub(crate) fn analyse(alloc: Global, points: Points) -> Result<Option<Analysed>, NoMemory> {
    let Ok(labels) = labels(alloc, &points) else {
        return Ok(None);
    };
    let origins = flow(alloc, &points, &labels)?;
    Ok(Some(Analysed {
        points,
        labels,
        origins,
    }))
}

impl Analysed {
    /// The label of what a point accesses, or none where it isn't there or isn't live, or accesses nothing.
    fn accessed(&self, point: u32) -> Option<Label> {
        if point >= self.points.count() || !self.points.live(point) {
            return None;
        }
        let operand = self.points.effect(point).accessed()?;
        self.labels.target(operand)
    }

    /// Whether the analysis foresees that a point accesses a location: whether that may
    /// flow to the label of the access.
    pub(crate) fn foresees(&self, point: u32, location: u32) -> bool {
        let Some(label) = self.accessed(point) else {
            return false;
        };
        let all = self.origins.all();
        label.0 < all.size() && location < all.size() && all.has(label.0, location)
    }
}
