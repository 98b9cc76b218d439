//! The labels that rows and rules name.
ghost use Rattle.std.specs.Prelude.{◌≡◌, ◌↔◌, ◌<◌, ℕ, true, length, Some, slice_get, IfSome};
ghost use Rattle.lk_facts.specs.EdgeRules.{IsInside, Of};
ghost use Rattle.lk_facts.specs.InRange.{IsHolderInRange, sizes_of};
ghost use Rattle.lk_facts.specs.LabelRules.{AreLabels, IsPart, IsWhole, leads_inside};
ghost use Rattle.lk_facts.specs.Labels.{name_with};
ghost use Rattle.lk_facts.specs.Places.{IsNumberOf};
ghost use Rattle.lk_facts.specs.Typed.{IsHolderType};
ghost use Rattle.lk_facts.specs.declared.label_entry.LabelName.{LabelName};
ghost use Rattle.lk_facts.specs.declared.root.Holder.TheVariants.{Root};
ghost use Rattle.lk_types.specs.Nodes.{IsNode, IsSel};
ghost use Rattle.lk_types.specs.Table.{IsKnown, type_at};
ghost use Rattle.lk_types.specs.declared.node.Sel.TheVariants.{Field, Target};
ghost use Rattle.lk_flow.specs.Finding.{Finds, FindsFrom, FindsPart, FindsTarget};

use lk_facts::{Holder, Label, LabelName, Labels, Points};
use lk_label::is_function;
use lk_types::{NodeId, Sel, TypeId, TypeTable};

/// The type of a holder, or nothing where it has none.
fn holder_type(points: &Points, holder: Holder) -> Option<TypeId>
    requires { IsHolderInRange (sizes_of points.now) holder }
    ensures exact { (t : ℕ) → IsHolderType points.now holder t ↔ (result ≡ Some t) }
    ensures known { IfSome result (IsKnown points.now.types) }
{
    match holder {
        Holder::Root(r) => Some(points.root(r).ty),
        Holder::Slot(f, s) => points.slots(f).get(s as usize).copied(),
        Holder::Result(f) => Some(points.result(f)),
        Holder::Point(p) => points.value_type(p),
    }
}

/// The label of a node of a holder, or nothing where there is none.
fn label_of(labels: &Labels, holder: Holder, node: &NodeId) -> Option<Label>
    ensures found { IsNumberOf labels.now.names (name_with holder node.now) result }
    ensures in_range { IfSome result (λ l. l < length labels.now.entries) }
{
    let NodeId { base, number } = *node;
    labels.find(holder, NodeId { base, number })
}

/// What the value of a holder points to.
pub fn pointee(points: &Points, labels: &Labels, holder: Holder) -> Option<Label>
    requires holder { IsHolderInRange (sizes_of points.now) holder }
    requires labels { AreLabels points.now labels.now }
    ensures found { Finds labels.now.names (Of points.now (IsWhole points.now holder) Target) result }
    ensures in_range { IfSome result (λ l. l < length labels.now.entries) }
{
    let types = points.types();
    let start = types.start_node(holder_type(points, holder)?);
    let NodeId { base, number } = types.step_node(start, Sel::Target)?;
    label_of(labels, holder, &NodeId { base, number })
}

/// The place of a root.
pub fn place(points: &Points, labels: &Labels, r: u32) -> Option<Label>
    requires root { r < length points.now.roots }
    requires labels { AreLabels points.now labels.now }
    ensures found { Finds labels.now.names (IsWhole points.now (Root r)) result }
    ensures in_range { IfSome result (λ l. l < length labels.now.entries) }
{
    let start = points.types().start_node(points.root(r).ty);
    labels.find(Holder::Root(r), start)
}

/// What a label names.
pub fn name_of(points: &Points, labels: &Labels, l: Label) -> LabelName
    requires label { l < length labels.now.entries }
    requires labels { AreLabels points.now labels.now }
    ensures name { slice_get labels.now.names l ≡ Some result }
    ensures node { IsNode points.now.types result.node }
{
    let _types = points.types();
    LabelName {
        holder: labels.holder(l),
        node: labels.node(l),
    }
}

/// The part of a label to which a step leads, or nothing where that is no label.
fn part(points: &Points, labels: &Labels, name: &LabelName, sel: Sel) -> Option<Label>
    requires node { IsNode points.now.types name.now.node }
    requires sel { IsSel points.now.types sel }
    requires labels { AreLabels points.now labels.now }
    ensures found { FindsPart points.now labels.now.names name.now sel result }
    ensures in_range { IfSome result (λ l. l < length labels.now.entries) }
{
    let NodeId { base, number } = points.types().step_node(name.node, sel)?;
    label_of(labels, name.holder, &NodeId { base, number })
}

/// Whether a step from a place of a type leads into a part of the same object.
fn leads_inside(types: &TypeTable, t: TypeId, sel: Sel) -> bool
    requires { IsKnown types.now t }
    ensures { result ≡ leads_inside (type_at types.now t) sel }
{
    match sel {
        Sel::Target => false,
        Sel::Field(_) => !is_function(types, t),
        Sel::Element | Sel::Part(_) => true,
    }
}

/// What a label points to.
pub fn target(points: &Points, labels: &Labels, l: Option<Label>) -> Option<Label>
    requires label { IfSome l (λ a. a < length labels.now.entries) }
    requires labels { AreLabels points.now labels.now }
    ensures found { FindsFrom labels.now.names (λ x. IsPart points.now x Target) l result }
    ensures in_range { IfSome result (λ a. a < length labels.now.entries) }
{
    let name = name_of(points, labels, l?);
    part(points, labels, &name, Sel::Target)
}

/// A member, an element or a Part of a label.
pub fn inside(points: &Points, labels: &Labels, l: Option<Label>, sel: Sel) -> Option<Label>
    requires label { IfSome l (λ a. a < length labels.now.entries) }
    requires sel { IsSel points.now.types sel }
    requires labels { AreLabels points.now labels.now }
    ensures found { FindsFrom labels.now.names (λ x. IsInside points.now x sel) l result }
    ensures in_range { IfSome result (λ a. a < length labels.now.entries) }
{
    let name = name_of(points, labels, l?);
    let types = points.types();
    if !leads_inside(types, types.node_type(name.node), sel) {
        return None;
    }
    part(points, labels, &name, sel)
}

/// The label of the node that a node of a holder points to, or nothing where there is none.
fn node_target(points: &Points, labels: &Labels, holder: Holder, node: &NodeId) -> Option<Label>
    requires { IsNode points.now.types node.now }
    ensures found { FindsTarget points.now.types labels.now.names holder node.now result }
    ensures in_range { IfSome result (λ a. a < length labels.now.entries) }
{
    let NodeId { base, number } = points.types().step_node(*node, Sel::Target)?;
    label_of(labels, holder, &NodeId { base, number })
}

/// What the result (`k` = 0) or the parameter `k` of a label points to.
pub fn behind(points: &Points, labels: &Labels, l: Option<Label>, k: u32) -> Option<Label>
    requires label { IfSome l (λ a. a < length labels.now.entries) }
    requires labels { AreLabels points.now labels.now }
    ensures found { FindsFrom labels.now.names (λ x.
        Of points.now (IsPart points.now x (Field k)) Target) l result }
    ensures in_range { IfSome result (λ a. a < length labels.now.entries) }
{
    let name = name_of(points, labels, l?);
    let types = points.types();
    let NodeId { base, number } = types.step_node(name.node, Sel::Field(k))?;
    node_target(points, labels, name.holder, &NodeId { base, number })
}
