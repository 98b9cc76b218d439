//! The edges of main's parameters.
ghost use Rattle.std.specs.Prelude.{◌<◌, length, OnOk};
ghost use Rattle.lk_facts.specs.EdgeRules.{In, Loc, Of, parameter, place};
ghost use Rattle.lk_facts.specs.LabelRules.{AreLabels};
ghost use Rattle.lk_facts.specs.declared.edge.Mark.TheVariants.{Plain};
ghost use Rattle.lk_types.specs.declared.node.Sel.TheVariants.{Element, Target};
ghost use Rattle.lk_flow.specs.Counting.{AnyOf, ArgsAt, MainAt};
ghost use Rattle.lk_flow.specs.Finding.{Finds};
ghost use Rattle.lk_flow.specs.Growing.{Adds, Joins};

use crate::found::Found;
use crate::names::{inside, place, pointee, target};
use lk_base::NoMemory;
use lk_facts::{Label, Labels, Mark, Points};
use lk_types::Sel;

/// What the parameter `k` of a function points to.
fn parameter_pointee(points: &Points, labels: &Labels, f: u32, k: u32) -> Option<Label>
    requires function { f < length points.now.functions }
    requires labels { AreLabels points.now labels.now }
    ensures { Finds labels.now.names (Of points.now (parameter points.now f k) Target) result }
{
    pointee(points, labels, points.param(f, k)?)
}

/// Joins an element of a root with what main's second parameter points to.
fn put_argv(points: &Points, labels: &Labels, r: u32, found: &mut Found) -> Result<(), NoMemory>
    requires root { r < length points.now.roots }
    requires labels { AreLabels points.now labels.now }
    ensures { OnOk result (Adds (Joins labels.now.names
        (Loc points.now Plain (In points.now (place points.now r) Element)
        (Of points.now (parameter points.now points.now.main 2) Target)))
        found.old found.new) }
{
    let place = place(points, labels, r);
    let from = inside(points, labels, place, Sel::Element);
    let to = parameter_pointee(points, labels, points.main(), 2);
    found.put(from, to, &Mark::Plain)
}

/// Joins an element of the root `r` with what an element of the root `q` points to, where
/// `q` is that of the pointers.
fn put_strings(
    points: &Points,
    labels: &Labels,
    r: u32,
    q: u32,
    found: &mut Found,
) -> Result<(), NoMemory>
    requires root { r < length points.now.roots }
    requires pointers { q < length points.now.roots }
    requires labels { AreLabels points.now labels.now }
    ensures { OnOk result (Adds (Joins labels.now.names (ArgsAt points.now r q)) found.old found.new) }
{
    if !points.root(q).kind.is_argv() {
        return Ok(());
    }
    let strings = place(points, labels, r);
    let from = inside(points, labels, strings, Sel::Element);
    let pointers = place(points, labels, q);
    let pointer = inside(points, labels, pointers, Sel::Element);
    let to = target(points, labels, pointer);
    found.put(from, to, &Mark::Plain)
}

/// Joins main's strings with what the pointers to them point to.
fn put_args(points: &Points, labels: &Labels, r: u32, found: &mut Found) -> Result<(), NoMemory>
    requires root { r < length points.now.roots }
    requires labels { AreLabels points.now labels.now }
    ensures { OnOk result (Adds (Joins labels.now.names (AnyOf (ArgsAt points.now r))) found.old found.new) }
{
    for q in 0..points.roots() {
        put_strings(points, labels, r, q, found)?;
    }
    Ok(())
}

/// Joins what a root of main's parameters joins.
pub fn put_main(points: &Points, labels: &Labels, r: u32, found: &mut Found) -> Result<(), NoMemory>
    requires root { r < length points.now.roots }
    requires labels { AreLabels points.now labels.now }
    ensures { OnOk result (Adds (Joins labels.now.names (MainAt points.now r)) found.old found.new) }
{
    let kind = points.root(r).kind;
    if kind.is_argv() {
        return put_argv(points, labels, r, found);
    }
    if kind.is_args() {
        return put_args(points, labels, r, found);
    }
    Ok(())
}
