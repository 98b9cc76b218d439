//! The edges of a program.
ghost use Rattle.std.specs.Prelude.{◌≡◌, IfOk, OnOk};
ghost use Rattle.lk_facts.specs.EdgeRules.{AreEdges};
ghost use Rattle.lk_facts.specs.LabelRules.{AreLabels};
ghost use Rattle.lk_facts.specs.PathTables.{AreEdgesWithin};
ghost use Rattle.lk_flow.specs.Closing.{IsClosing};
ghost use Rattle.lk_flow.specs.Counting.{AnyOf, MainAt, RowAt, ValueAt};
ghost use Rattle.lk_flow.specs.Growing.{Adds, Joins};

use crate::actions::put_row;
use crate::calls::put_value;
use crate::close::follow;
use crate::found::Found;
use crate::mains::put_main;
use lk_base::NoMemory;
use lk_facts::{Edge, Labels, Points};
use std::alloc::Global;

/// Joins what the rows of all points join.
fn put_rows(points: &Points, labels: &Labels, found: &mut Found) -> Result<(), NoMemory>
    requires { AreLabels points.now labels.now }
    ensures { OnOk result (Adds (Joins labels.now.names (AnyOf (RowAt points.now))) found.old found.new) }
{
    for p in 0..points.count() {
        put_row(points, labels, p, found)?;
    }
    Ok(())
}

/// Joins what all roots of main's parameters join.
fn put_mains(points: &Points, labels: &Labels, found: &mut Found) -> Result<(), NoMemory>
    requires { AreLabels points.now labels.now }
    ensures { OnOk result (Adds (Joins labels.now.names (AnyOf (MainAt points.now))) found.old found.new) }
{
    for r in 0..points.roots() {
        put_main(points, labels, r, found)?;
    }
    Ok(())
}

/// Joins what all functions that are used as values join.
fn put_values(points: &Points, labels: &Labels, found: &mut Found) -> Result<(), NoMemory>
    requires { AreLabels points.now labels.now }
    ensures { OnOk result (Adds (Joins labels.now.names (AnyOf (ValueAt points.now))) found.old found.new) }
{
    for g in 0..points.functions() {
        put_value(points, labels, g, found)?;
    }
    Ok(())
}

/// The edges that follow from none.
fn base(alloc: Global, points: &Points, labels: &Labels) -> Result<Found, NoMemory>
    requires { AreLabels points.now labels.now }
    ensures { IfOk result (IsClosing points.now labels.now.names 0) }
{
    let mut found = Found::new(alloc);
    put_rows(points, labels, &mut found)?;
    put_mains(points, labels, &mut found)?;
    put_values(points, labels, &mut found)?;
    Ok(found)
}

/// Joins all that follows from what is joined.
fn close(points: &Points, labels: &Labels, found: &mut Found) -> Result<(), NoMemory>
    requires labels { AreLabels points.now labels.now }
    requires base { IsClosing points.now labels.now.names 0 found.old }
    ensures { OnOk result (AreEdges points.now labels.now.names found.new) }
{
    let _labels = labels.count();
    for k in 0..usize::MAX {
        if k >= found.count() {
            found.are_different();
            return Ok(());
        }
        let edge = found.at(k);
        follow(points, labels, &edge, found)?;
    }
    prove!(found.count() < usize::MAX);
    unreachable!()
}

/// The edges as a list.
fn listed(alloc: Global, found: &Found) -> Result<Vec<Edge>, NoMemory>
    ensures { IfOk result (λ edges. edges.items ≡ found.now) }
{
    let mut edges = Vec::new(alloc);
    edges.extend_from_slice(found.list())?;
    Ok(edges)
}

/// The edges of a program between its labels (LOCKSMITH: label flow), each once: those of the rows of its
/// points, of main's parameters and of the functions that are used as values, and all that follow from these
/// by the three rules. `NoMemory` where memory ends.
pub fn edges(alloc: Global, points: &Points, labels: &Labels) -> Result<Vec<Edge>, NoMemory>
    requires { AreLabels points.now labels.now }
    ensures edges { IfOk result (λ edges. AreEdges points.now labels.now.names edges.items) }
    ensures within { IfOk result (λ edges. AreEdgesWithin labels.now edges.items) }
{
    let _labels = labels.count();
    let mut found = base(alloc, points, labels)?;
    close(points, labels, &mut found)?;
    listed(alloc, &found)
}
