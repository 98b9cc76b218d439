//! The places of cells that an initialiser fills (C99 6.7.8).
ghost use Rattle.std.specs.Prelude.{◌≡◌, ◌<◌, ◌↔◌, ℕ, IsTrue, IfSome, Some, length, true};
ghost use Rattle.lk_facts.specs.InRange.{IsActionInRange, sizes_of};
ghost use Rattle.lk_facts.specs.Typed.{HoldsCell, PointsTo};
ghost use Rattle.lk_point_types.specs.Each.{FillsItsPlace};
ghost use Rattle.lk_facts.specs.LabelRules.{Steps};
ghost use Rattle.lk_facts.specs.declared.action.Action.TheVariants.{Root as ToRoot, Field as ToMember, Index as ToElement};
ghost use Rattle.lk_point_types.specs.Filled.{IsRootStart, IsStepFrom, LeadsBy, LeadsToNode};
ghost use Rattle.lk_types.specs.Nodes.{IsNode, IsSel, node_of};
ghost use Rattle.lk_types.specs.Table.{IsKnown};
ghost use Rattle.lk_types.specs.declared.node.NodeId.{NodeId as Node};
ghost use Rattle.lk_types.specs.declared.node.Sel.{Sel as SelIs};

use crate::forms::form;
use crate::readers::points_to;
use lk_facts::{Action, Place, Points};
use lk_types::{MOST_TABLE_STEPS, NodeId, Sel, TypeId};

/// The object of a root as a part of itself.
fn root_node(points: &Points, r: u32) -> NodeId
    requires { r < length points.now.roots }
    ensures node { IsNode points.now.types result }
    ensures start { IsRootStart points.now r result }
{
    points.types().start_node(points.root(r).ty)
}

/// The part to which a step leads from another one.
fn part_behind(points: &Points, node: NodeId, sel: Sel) -> Option<NodeId>
    requires node { IsNode points.now.types node }
    requires sel { IsSel points.now.types sel }
    ensures node { IfSome result (IsNode points.now.types) }
    ensures steps { IfSome result (Steps points.now.types node sel) }
    ensures only { (n : Node) → Steps points.now.types node sel n → result ≡ Some n }
{
    points.types().step_node(node, sel)
}

/// Whether two parts are one.
fn is_same_node(a: NodeId, b: NodeId) -> bool
    ensures { IsTrue result ↔ (a ≡ b) }
{
    a == b
}

/// The root to the object of which an action gives a pointer.
fn root_of(action: &Action) -> Option<u32>
    ensures root { IfSome result (λ r. action.now ≡ ToRoot r) }
    ensures only { (r : ℕ) → action.now ≡ ToRoot r → result ≡ Some r }
{
    match action {
        Action::Root(root) => Some(*root),
        Action::Value { .. }
        | Action::Field { .. }
        | Action::Index { .. }
        | Action::Null { .. }
        | Action::Func { .. }
        | Action::SelfId
        | Action::Text(_)
        | Action::Read { .. }
        | Action::Write { .. }
        | Action::SlotRead(_)
        | Action::SlotWrite { .. }
        | Action::Unary { .. }
        | Action::Binary { .. }
        | Action::Compute { .. }
        | Action::Convert { .. }
        | Action::Branch(_)
        | Action::Switch { .. }
        | Action::Skip
        | Action::Call { .. }
        | Action::PointerCall { .. }
        | Action::Return(_)
        | Action::Create { .. }
        | Action::StoreId(_)
        | Action::Join(_)
        | Action::Detach(_)
        | Action::ExitThread
        | Action::ExitProcess
        | Action::Lock(_)
        | Action::Unlock(_)
        | Action::Release { .. }
        | Action::Retake(_)
        | Action::Init(_)
        | Action::Destroy(_)
        | Action::Signal(_)
        | Action::Allocate { .. }
        | Action::Free(_)
        | Action::Scan(_)
        | Action::Fill { .. } => None,
    }
}

/// The pointer from which an action goes to a member.
fn member_of(action: &Action) -> Option<(u32, u32)>
    ensures member { IfSome result (λ to. action.now ≡ ToMember to.0 to.1) }
    ensures only { (a k : ℕ) → action.now ≡ ToMember a k → result ≡ Some (a, k) }
{
    match action {
        Action::Field { a, member } => Some((*a, *member)),
        Action::Value { .. }
        | Action::Root(_)
        | Action::Index { .. }
        | Action::Null { .. }
        | Action::Func { .. }
        | Action::SelfId
        | Action::Text(_)
        | Action::Read { .. }
        | Action::Write { .. }
        | Action::SlotRead(_)
        | Action::SlotWrite { .. }
        | Action::Unary { .. }
        | Action::Binary { .. }
        | Action::Compute { .. }
        | Action::Convert { .. }
        | Action::Branch(_)
        | Action::Switch { .. }
        | Action::Skip
        | Action::Call { .. }
        | Action::PointerCall { .. }
        | Action::Return(_)
        | Action::Create { .. }
        | Action::StoreId(_)
        | Action::Join(_)
        | Action::Detach(_)
        | Action::ExitThread
        | Action::ExitProcess
        | Action::Lock(_)
        | Action::Unlock(_)
        | Action::Release { .. }
        | Action::Retake(_)
        | Action::Init(_)
        | Action::Destroy(_)
        | Action::Signal(_)
        | Action::Allocate { .. }
        | Action::Free(_)
        | Action::Scan(_)
        | Action::Fill { .. } => None,
    }
}

/// The pointer from which an action goes to an element.
fn element_of(action: &Action) -> Option<u32>
    ensures element { IfSome result (λ a. (b : ℕ) × (action.now ≡ ToElement a b true)) }
    ensures only { (a b : ℕ) → action.now ≡ ToElement a b true → result ≡ Some a }
{
    match action {
        Action::Index { a, into, .. } => { if *into { Some(*a) } else { None } }
        Action::Value { .. }
        | Action::Root(_)
        | Action::Field { .. }
        | Action::Null { .. }
        | Action::Func { .. }
        | Action::SelfId
        | Action::Text(_)
        | Action::Read { .. }
        | Action::Write { .. }
        | Action::SlotRead(_)
        | Action::SlotWrite { .. }
        | Action::Unary { .. }
        | Action::Binary { .. }
        | Action::Compute { .. }
        | Action::Convert { .. }
        | Action::Branch(_)
        | Action::Switch { .. }
        | Action::Skip
        | Action::Call { .. }
        | Action::PointerCall { .. }
        | Action::Return(_)
        | Action::Create { .. }
        | Action::StoreId(_)
        | Action::Join(_)
        | Action::Detach(_)
        | Action::ExitThread
        | Action::ExitProcess
        | Action::Lock(_)
        | Action::Unlock(_)
        | Action::Release { .. }
        | Action::Retake(_)
        | Action::Init(_)
        | Action::Destroy(_)
        | Action::Signal(_)
        | Action::Allocate { .. }
        | Action::Free(_)
        | Action::Scan(_)
        | Action::Fill { .. } => None,
    }
}

/// The pointer from which an action goes to a part, and the step.
fn step_of(action: &Action) -> Option<(u32, Sel)>
    ensures step { IfSome result (λ to. IsStepFrom action.now to.0 to.1) }
    ensures only { (a : ℕ) (sel : SelIs) → IsStepFrom action.now a sel → result ≡ Some (a, sel) }
{
    match member_of(action) {
        Some((a, member)) => Some((a, Sel::Field(member))),
        None => match element_of(action) {
            Some(a) => Some((a, Sel::Element)),
            None => None,
        },
    }
}

/// The part of the object of a root to which the pointer leads that a point gives: that by fewer than so many
/// steps to members and elements.
fn part_at(points: &Points, p: u32, steps: u32) -> Option<NodeId>
    requires { p < length points.now.points }
    ensures node { IfSome result (IsNode points.now.types) }
    ensures leads { IfSome result (LeadsToNode points.now p) }
    ensures only { (k : ℕ) (n : Node) → LeadsBy points.now k p n → k < steps → result ≡ Some n }
{
    let left = steps.checked_sub(1)?;
    let action = points.action(p);
    match root_of(action) {
        Some(root) => Some(root_node(points, root)),
        None => match step_of(action) {
            Some(step) => {
                let node = part_at(points, step.0, left)?;
                part_behind(points, node, step.1)
            }
            None => None,
        },
    }
}

/// Whether an object of a type is one cell: it holds a value, or is a mutex or a condition variable.
fn holds_cell(points: &Points, t: TypeId) -> bool
    requires { IsKnown points.now.types t }
    ensures { IsTrue result ↔ HoldsCell points.now t }
{
    form(points.types(), t).is_cell()
}

/// Whether a point gives a pointer to a type of which an object is one cell.
fn points_to_cell(points: &Points, a: u32, t: TypeId) -> bool
    requires point { a < length points.now.points }
    requires known { IsKnown points.now.types t }
    ensures { IsTrue result ↔ (PointsTo points.now a t × HoldsCell points.now t) }
{
    points_to(points, a, t) && holds_cell(points, t)
}

/// Whether a point that gives a pointer to the place of a cell gives one to its type.
pub(crate) fn points_to_place(points: &Points, a: u32, place: Place) -> bool
    requires point { a < length points.now.points }
    requires leads { LeadsToNode points.now a place.node }
    ensures { IsTrue result ↔ (PointsTo points.now a (node_of points.now.types place.node).type
        × HoldsCell points.now (node_of points.now.types place.node).type) }
{
    points_to_cell(points, a, points.types().node_type(place.node))
}

/// Whether the operand of an action that fills cells points to those of the place that it names. No type of a
/// table has more than `MOST_TABLE_STEPS` steps to its parts.
pub(crate) fn has_its_place(points: &Points, action: &Action) -> bool
    requires { IsActionInRange (sizes_of points.now) action.now }
    ensures { IsTrue result ↔ FillsItsPlace points.now action.now }
{
    let Action::Fill { a, place, .. } = action else {
        return true;
    };
    points.types().is_table();
    match part_at(points, *a, MOST_TABLE_STEPS + 1) {
        Some(node) => is_same_node(node, place.node),
        None => false,
    }
}
