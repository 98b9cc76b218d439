//! The labels of what the values of points point to.
ghost use Rattle.std.specs.Prelude.{◌<◌, ◌≤◌, length, IfOk};
ghost use Rattle.lk_label.specs.Listing.{AreTargets, IsTarget};

use crate::names::Names;
use lk_base::NoMemory;
use lk_facts::{Holder, Label, LabelName, Points};
use lk_types::Sel;
use std::alloc::Global;

/// The label of what the value of a point points to, or nothing where there is none.
fn target_of(points: &Points, names: &Names, p: u32) -> Option<Label>
    requires point { p < length points.now.points }
    requires few { length names.now ≤ 65536 }
    ensures { IsTarget points.now names.now p result }
{
    let types = points.types();
    let start = types.start_node(points.value_type(p)?);
    let node = types.step_node(start, Sel::Target)?;
    let holder = Holder::Point(p);
    let number = names.find(LabelName { holder, node })?;
    Some(Label(number as u32))
}

/// For each point the label of what its value points to.
pub fn targets(
    alloc: Global,
    points: &Points,
    names: &Names,
) -> Result<Vec<Option<Label>>, NoMemory>
    requires { length names.now ≤ 65536 }
    ensures { IfOk result (λ targets. AreTargets points.now names.now (length points.now.points) targets.items) }
{
    let mut targets = Vec::new(alloc);
    for p in 0..points.count() {
        targets.push(target_of(points, names, p))?;
    }
    Ok(targets)
}
