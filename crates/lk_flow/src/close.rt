//! What an edge gives by the three rules.
ghost use Rattle.std.specs.Prelude.{◌≡◌, ◌<◌, length, Some, slice_get, OnOk};
ghost use Rattle.lk_facts.specs.LabelRules.{AreLabels, form_of, is_function};
ghost use Rattle.lk_facts.specs.Paths.{opposite};
ghost use Rattle.lk_facts.specs.declared.label_entry.LabelName.{LabelName};
ghost use Rattle.lk_types.specs.Nodes.{IsSel};
ghost use Rattle.lk_flow.specs.Closing.{AreCode, AreEnds, FieldsBoth, FunctionsBoth, InsideBoth, Next, ParametersBoth, PartsBoth, TargetsBoth, TargetsOf};
ghost use Rattle.lk_flow.specs.Counting.{AnyOf};
ghost use Rattle.lk_flow.specs.Growing.{Adds, Joins};

use crate::found::Found;
use crate::names::{behind, inside, name_of, target};
use lk_base::NoMemory;
use lk_facts::{Edge, Label, Labels, Mark, Points};
use lk_label::{field_count, is_function};
use lk_types::Sel;

/// The mark of the way back.
fn opposite(mark: &Mark) -> Mark
    ensures { result ≡ opposite mark.now }
{
    match mark {
        Mark::Plain => Mark::Plain,
        Mark::Enter(site) => Mark::Leave(*site),
        Mark::Leave(site) => Mark::Enter(*site),
    }
}

/// Joins what one label points to with what another does.
fn put_target(
    points: &Points,
    labels: &Labels,
    from: Label,
    to: Label,
    mark: &Mark,
    found: &mut Found,
) -> Result<(), NoMemory>
    requires from { from < length labels.now.entries }
    requires to { to < length labels.now.entries }
    requires labels { AreLabels points.now labels.now }
    ensures { OnOk result ((u v : LabelName) →
        slice_get labels.now.names from ≡ Some u → slice_get labels.now.names to ≡ Some v →
        Adds (Joins labels.now.names (TargetsOf points.now u v mark.now)) found.old found.new) }
{
    let from = target(points, labels, Some(from));
    let to = target(points, labels, Some(to));
    found.put(from, to, mark)
}

/// Joins what the ends of an edge point to, both ways.
fn put_targets(
    points: &Points,
    labels: &Labels,
    edge: &Edge,
    found: &mut Found,
) -> Result<(), NoMemory>
    requires from { edge.now.from < length labels.now.entries }
    requires to { edge.now.to < length labels.now.entries }
    requires labels { AreLabels points.now labels.now }
    ensures { OnOk result ((u v : LabelName) → AreEnds labels.now.names edge.now u v →
        Adds (Joins labels.now.names (TargetsBoth points.now u v edge.now.mark)) found.old found.new) }
{
    put_target(points, labels, edge.from, edge.to, &edge.mark, found)?;
    let back = opposite(&edge.mark);
    put_target(points, labels, edge.to, edge.from, &back, found)
}

/// Joins the parts of the ends of an edge to which one step leads in the same object.
fn put_inside(
    points: &Points,
    labels: &Labels,
    edge: &Edge,
    sel: &Sel,
    found: &mut Found,
) -> Result<(), NoMemory>
    requires from { edge.now.from < length labels.now.entries }
    requires to { edge.now.to < length labels.now.entries }
    requires sel { IsSel points.now.types sel.now }
    requires labels { AreLabels points.now labels.now }
    ensures { OnOk result ((u v : LabelName) → AreEnds labels.now.names edge.now u v →
        Adds (Joins labels.now.names (InsideBoth points.now u v edge.now.mark sel.now)) found.old found.new) }
{
    let from = inside(points, labels, Some(edge.from), *sel);
    let to = inside(points, labels, Some(edge.to), *sel);
    found.put(from, to, &edge.mark)
}

/// Joins the members of the ends of an edge.
fn put_fields(
    points: &Points,
    labels: &Labels,
    edge: &Edge,
    found: &mut Found,
) -> Result<(), NoMemory>
    requires from { edge.now.from < length labels.now.entries }
    requires to { edge.now.to < length labels.now.entries }
    requires labels { AreLabels points.now labels.now }
    ensures { OnOk result ((u v : LabelName) → AreEnds labels.now.names edge.now u v →
        Adds (Joins labels.now.names (AnyOf (FieldsBoth points.now u v edge.now.mark))) found.old found.new) }
{
    let types = points.types();
    let name = name_of(points, labels, edge.from);
    for k in 0..field_count(types, types.node_type(name.node)) {
        put_inside(points, labels, edge, &Sel::Field(k), found)?;
    }
    Ok(())
}

/// Joins the Parts of the ends of an edge.
fn put_parts(
    points: &Points,
    labels: &Labels,
    edge: &Edge,
    found: &mut Found,
) -> Result<(), NoMemory>
    requires from { edge.now.from < length labels.now.entries }
    requires to { edge.now.to < length labels.now.entries }
    requires labels { AreLabels points.now labels.now }
    ensures { OnOk result ((u v : LabelName) → AreEnds labels.now.names edge.now u v →
        Adds (Joins labels.now.names (AnyOf (PartsBoth points.now u v edge.now.mark))) found.old found.new) }
{
    for part in points.types().parts() {
        put_inside(points, labels, edge, &Sel::Part(*part), found)?;
    }
    Ok(())
}

/// Whether a label names a function.
fn is_code(points: &Points, labels: &Labels, l: Label) -> bool
    requires label { l < length labels.now.entries }
    requires labels { AreLabels points.now labels.now }
    ensures { (u : LabelName) → slice_get labels.now.names l ≡ Some u →
        result ≡ is_function (form_of points.now.types u.node) }
{
    let types = points.types();
    let name = name_of(points, labels, l);
    is_function(types, types.node_type(name.node))
}

/// Joins what the parameters of two functions point to, against the edge.
fn put_parameters(
    points: &Points,
    labels: &Labels,
    edge: &Edge,
    found: &mut Found,
) -> Result<(), NoMemory>
    requires from { edge.now.from < length labels.now.entries }
    requires to { edge.now.to < length labels.now.entries }
    requires labels { AreLabels points.now labels.now }
    ensures { OnOk result ((u v : LabelName) → AreCode points.now labels.now.names edge.now u v →
        Adds (Joins labels.now.names (AnyOf (ParametersBoth points.now u v edge.now.mark))) found.old
        found.new) }
{
    let types = points.types();
    let name = name_of(points, labels, edge.from);
    let back = opposite(&edge.mark);
    for k in 0..field_count(types, types.node_type(name.node)) {
        let from = behind(points, labels, Some(edge.to), k + 1);
        let to = behind(points, labels, Some(edge.from), k + 1);
        found.put(from, to, &back)?;
    }
    Ok(())
}

/// Joins what the results of two functions point to, and their parameters.
fn put_code(
    points: &Points,
    labels: &Labels,
    edge: &Edge,
    found: &mut Found,
) -> Result<(), NoMemory>
    requires from { edge.now.from < length labels.now.entries }
    requires to { edge.now.to < length labels.now.entries }
    requires labels { AreLabels points.now labels.now }
    ensures { OnOk result ((u v : LabelName) → AreCode points.now labels.now.names edge.now u v →
        Adds (Joins labels.now.names (FunctionsBoth points.now u v edge.now.mark)) found.old found.new) }
{
    let from = behind(points, labels, Some(edge.from), 0);
    let to = behind(points, labels, Some(edge.to), 0);
    found.put(from, to, &edge.mark)?;
    put_parameters(points, labels, edge, found)
}

/// Joins what the results and the parameters of the ends of an edge point to, where both are functions.
fn put_functions(
    points: &Points,
    labels: &Labels,
    edge: &Edge,
    found: &mut Found,
) -> Result<(), NoMemory>
    requires from { edge.now.from < length labels.now.entries }
    requires to { edge.now.to < length labels.now.entries }
    requires labels { AreLabels points.now labels.now }
    ensures { OnOk result ((u v : LabelName) → AreEnds labels.now.names edge.now u v →
        Adds (Joins labels.now.names (FunctionsBoth points.now u v edge.now.mark)) found.old found.new) }
{
    if !is_code(points, labels, edge.from) {
        return Ok(());
    }
    if !is_code(points, labels, edge.to) {
        return Ok(());
    }
    put_code(points, labels, edge, found)
}

/// Joins all that follows from an edge in one step.
pub fn follow(
    points: &Points,
    labels: &Labels,
    edge: &Edge,
    found: &mut Found,
) -> Result<(), NoMemory>
    requires from { edge.now.from < length labels.now.entries }
    requires to { edge.now.to < length labels.now.entries }
    requires labels { AreLabels points.now labels.now }
    ensures { OnOk result ((u v : LabelName) → AreEnds labels.now.names edge.now u v →
        Adds (Joins labels.now.names (Next points.now u v edge.now.mark)) found.old found.new) }
{
    put_targets(points, labels, edge, found)?;
    put_inside(points, labels, edge, &Sel::Element, found)?;
    put_fields(points, labels, edge, found)?;
    put_parts(points, labels, edge, found)?;
    put_functions(points, labels, edge, found)
}
