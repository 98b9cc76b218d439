//! The edges of the action of a point.
ghost use Rattle.std.specs.Prelude.{◌≡◌, ◌<◌, ℕ, true, length, IfSome, OnOk};
ghost use Rattle.lk_facts.specs.EdgeRules.{Of, Returns, Row, Sub, slot, value};
ghost use Rattle.lk_facts.specs.InRange.{IsActionInRange, sizes_of};
ghost use Rattle.lk_facts.specs.LabelRules.{AreLabels, IsWhole};
ghost use Rattle.lk_facts.specs.declared.action.Action.TheVariants.{Index};
ghost use Rattle.lk_facts.specs.declared.edge.Mark.TheVariants.{Plain};
ghost use Rattle.lk_facts.specs.declared.root.Holder.TheVariants.{Result as ResultOf};
ghost use Rattle.lk_types.specs.declared.node.Sel.TheVariants.{Target};
ghost use Rattle.lk_flow.specs.Actions.{is_local, is_passing};
ghost use Rattle.lk_flow.specs.Counting.{RowAt};
ghost use Rattle.lk_flow.specs.Finding.{Finds};
ghost use Rattle.lk_flow.specs.Growing.{Adds, Joins};

use crate::calls::put_pointer_call;
use crate::conversions::put_conversion;
use crate::found::Found;
use crate::names::pointee;
use crate::rows::{
    object, put_address, put_allocation, put_call, put_create, put_part, put_read, put_sub,
    put_write,
};
use lk_base::NoMemory;
use lk_facts::{Action, Holder, Label, Labels, Mark, Points};
use lk_types::Sel;

/// Whether an action may join labels within one function.
fn is_local(action: &Action) -> bool
    ensures { result ≡ is_local action.now }
{
    match action {
        Action::Func { .. }
        | Action::Root(_)
        | Action::Text(_)
        | Action::Field { .. }
        | Action::Index { .. }
        | Action::Read { .. }
        | Action::Write { .. }
        | Action::SlotRead(_)
        | Action::SlotWrite { .. }
        | Action::Binary { .. }
        | Action::Convert { .. } => true,
        Action::Value { .. }
        | Action::Null { .. }
        | Action::SelfId
        | Action::Unary { .. }
        | Action::Compute { .. }
        | Action::Branch(_)
        | Action::Switch { .. }
        | Action::Skip
        | Action::Call { .. }
        | Action::PointerCall { .. }
        | Action::Return(_)
        | Action::Create { .. }
        | Action::StoreId(_)
        | Action::Join(_)
        | Action::Detach(_)
        | Action::ExitThread
        | Action::ExitProcess
        | Action::Lock(_)
        | Action::Unlock(_)
        | Action::Release { .. }
        | Action::Retake(_)
        | Action::Init(_)
        | Action::Destroy(_)
        | Action::Signal(_)
        | Action::Allocate { .. }
        | Action::Free(_)
        | Action::Scan(_)
        | Action::Fill { .. } => false,
    }
}

/// Whether an action may join labels into a function or out of it, or from an object that it allocates.
fn is_passing(action: &Action) -> bool
    ensures { result ≡ is_passing action.now }
{
    match action {
        Action::Call { .. }
        | Action::PointerCall { .. }
        | Action::Return(_)
        | Action::Create { .. }
        | Action::Allocate { .. } => true,
        Action::Value { .. }
        | Action::Null { .. }
        | Action::Func { .. }
        | Action::SelfId
        | Action::Root(_)
        | Action::Text(_)
        | Action::Field { .. }
        | Action::Index { .. }
        | Action::Read { .. }
        | Action::Write { .. }
        | Action::SlotRead(_)
        | Action::SlotWrite { .. }
        | Action::Unary { .. }
        | Action::Binary { .. }
        | Action::Compute { .. }
        | Action::Convert { .. }
        | Action::Branch(_)
        | Action::Switch { .. }
        | Action::Skip
        | Action::StoreId(_)
        | Action::Join(_)
        | Action::Detach(_)
        | Action::ExitThread
        | Action::ExitProcess
        | Action::Lock(_)
        | Action::Unlock(_)
        | Action::Release { .. }
        | Action::Retake(_)
        | Action::Init(_)
        | Action::Destroy(_)
        | Action::Signal(_)
        | Action::Free(_)
        | Action::Scan(_)
        | Action::Fill { .. } => false,
    }
}

/// What a slot of a function points to.
fn slot_pointee(points: &Points, labels: &Labels, f: u32, s: u32) -> Option<Label>
    requires labels { AreLabels points.now labels.now }
    ensures { Finds labels.now.names (Of points.now (slot points.now f s) Target) result }
{
    if f >= points.functions() {
        return None;
    }
    pointee(points, labels, Holder::Slot(f, s))
}

/// What the result of a function points to.
fn result_pointee(points: &Points, labels: &Labels, f: u32) -> Option<Label>
    requires labels { AreLabels points.now labels.now }
    ensures { Finds labels.now.names (Of points.now (IsWhole points.now (ResultOf f)) Target) result }
{
    if f >= points.functions() {
        return None;
    }
    pointee(points, labels, Holder::Result(f))
}

/// Joins what a slot that is read points to with what the point points to.
fn put_slot_read(
    points: &Points,
    labels: &Labels,
    f: u32,
    s: u32,
    p: u32,
    found: &mut Found,
) -> Result<(), NoMemory>
    requires point { p < length points.now.points }
    requires labels { AreLabels points.now labels.now }
    ensures { OnOk result (Adds (Joins labels.now.names
        (Sub points.now Plain (slot points.now f s) (value points.now p))) found.old found.new) }
{
    let from = slot_pointee(points, labels, f, s);
    let to = pointee(points, labels, Holder::Point(p));
    found.put(from, to, &Mark::Plain)
}

/// Joins what is written into a slot with what the slot points to.
fn put_slot_write(
    points: &Points,
    labels: &Labels,
    f: u32,
    s: u32,
    a: u32,
    found: &mut Found,
) -> Result<(), NoMemory>
    requires operand { a < length points.now.points }
    requires labels { AreLabels points.now labels.now }
    ensures { OnOk result (Adds (Joins labels.now.names
        (Sub points.now Plain (value points.now a) (slot points.now f s))) found.old found.new) }
{
    let from = pointee(points, labels, Holder::Point(a));
    let to = slot_pointee(points, labels, f, s);
    found.put(from, to, &Mark::Plain)
}

/// Joins what is returned with what the result of the function points to.
fn put_return(
    points: &Points,
    labels: &Labels,
    f: u32,
    a: Option<u32>,
    found: &mut Found,
) -> Result<(), NoMemory>
    requires operand { IfSome a (λ b. b < length points.now.points) }
    requires labels { AreLabels points.now labels.now }
    ensures { OnOk result (Adds (Joins labels.now.names (Returns points.now f a)) found.old found.new) }
{
    match a {
        Some(a) => {
            let from = pointee(points, labels, Holder::Point(a));
            let to = result_pointee(points, labels, f);
            found.put(from, to, &Mark::Plain)
        }
        None => Ok(()),
    }
}

/// Joins an element of an array with what the point points to, or moves a pointer.
fn put_index(
    points: &Points,
    labels: &Labels,
    a: u32,
    into: bool,
    p: u32,
    found: &mut Found,
) -> Result<(), NoMemory>
    requires operand { a < length points.now.points }
    requires point { p < length points.now.points }
    requires labels { AreLabels points.now labels.now }
    ensures { OnOk result ((f b : ℕ) →
        Adds (Joins labels.now.names (Row points.now p f (Index a b into))) found.old found.new) }
{
    if into {
        return put_part(points, labels, a, Sel::Element, p, found);
    }
    put_sub(
        points,
        labels,
        Holder::Point(a),
        Holder::Point(p),
        &Mark::Plain,
        found,
    )
}

/// Joins what an action joins within one function.
fn put_local(
    points: &Points,
    labels: &Labels,
    p: u32,
    f: u32,
    action: &Action,
    found: &mut Found,
) -> Result<(), NoMemory>
    requires point { p < length points.now.points }
    requires in_range { IsActionInRange (sizes_of points.now) action.now }
    requires here { is_local action.now ≡ true }
    requires labels { AreLabels points.now labels.now }
    ensures { OnOk result (Adds (Joins labels.now.names
        (Row points.now p f action.now)) found.old found.new) }
{
    match action {
        Action::Func { function } => {
            put_address(points, labels, points.function_root(*function), p, found)
        }
        Action::Root(r) => put_address(points, labels, *r, p, found),
        Action::Text(r) => put_address(points, labels, *r, p, found),
        Action::Field { a, member } => {
            put_part(points, labels, *a, Sel::Field(*member), p, found)
        }
        Action::Index { a, into, .. } => put_index(points, labels, *a, *into, p, found),
        Action::Read { a, .. } => put_read(points, labels, *a, p, found),
        Action::Write { a, b, .. } => put_write(points, labels, *a, *b, found),
        Action::SlotRead(s) => put_slot_read(points, labels, f, *s, p, found),
        Action::SlotWrite { slot, a } => put_slot_write(points, labels, f, *slot, *a, found),
        Action::Binary { a, .. } => {
            let from = Holder::Point(*a);
            put_sub(points, labels, from, Holder::Point(p), &Mark::Plain, found)
        }
        Action::Convert { a, .. } => put_conversion(points, labels, *a, p, found),
        Action::Value { .. }
        | Action::Null { .. }
        | Action::SelfId
        | Action::Unary { .. }
        | Action::Compute { .. }
        | Action::Branch(_)
        | Action::Switch { .. }
        | Action::Skip
        | Action::Call { .. }
        | Action::PointerCall { .. }
        | Action::Return(_)
        | Action::Create { .. }
        | Action::StoreId(_)
        | Action::Join(_)
        | Action::Detach(_)
        | Action::ExitThread
        | Action::ExitProcess
        | Action::Lock(_)
        | Action::Unlock(_)
        | Action::Release { .. }
        | Action::Retake(_)
        | Action::Init(_)
        | Action::Destroy(_)
        | Action::Signal(_)
        | Action::Allocate { .. }
        | Action::Free(_)
        | Action::Scan(_)
        | Action::Fill { .. } => Ok(()),
    }
}

/// Joins what an action joins into a function or out of it, or from an object that it allocates.
fn put_passing(
    points: &Points,
    labels: &Labels,
    p: u32,
    f: u32,
    action: &Action,
    found: &mut Found,
) -> Result<(), NoMemory>
    requires point { p < length points.now.points }
    requires in_range { IsActionInRange (sizes_of points.now) action.now }
    requires there { is_passing action.now ≡ true }
    requires labels { AreLabels points.now labels.now }
    ensures { OnOk result (Adds (Joins labels.now.names
        (Row points.now p f action.now)) found.old found.new) }
{
    match action {
        Action::Call { function, args } => {
            put_call(points, labels, p, *function, args.list(), found)
        }
        Action::PointerCall { a, args } => {
            put_pointer_call(points, labels, p, *a, args.list(), found)
        }
        Action::Return(a) => put_return(points, labels, f, *a, found),
        Action::Create { function, a } => put_create(points, labels, p, *function, *a, found),
        Action::Allocate {
            ty,
            count,
            root,
            ..
        } => {
            let made = object(points, labels, *root, count.is_some());
            put_allocation(points, labels, *ty, made, p, found)
        }
        Action::Value { .. }
        | Action::Null { .. }
        | Action::Func { .. }
        | Action::SelfId
        | Action::Root(_)
        | Action::Text(_)
        | Action::Field { .. }
        | Action::Index { .. }
        | Action::Read { .. }
        | Action::Write { .. }
        | Action::SlotRead(_)
        | Action::SlotWrite { .. }
        | Action::Unary { .. }
        | Action::Binary { .. }
        | Action::Compute { .. }
        | Action::Convert { .. }
        | Action::Branch(_)
        | Action::Switch { .. }
        | Action::Skip
        | Action::StoreId(_)
        | Action::Join(_)
        | Action::Detach(_)
        | Action::ExitThread
        | Action::ExitProcess
        | Action::Lock(_)
        | Action::Unlock(_)
        | Action::Release { .. }
        | Action::Retake(_)
        | Action::Init(_)
        | Action::Destroy(_)
        | Action::Signal(_)
        | Action::Free(_)
        | Action::Scan(_)
        | Action::Fill { .. } => Ok(()),
    }
}

/// Joins what the row of a point joins.
pub fn put_row(points: &Points, labels: &Labels, p: u32, found: &mut Found) -> Result<(), NoMemory>
    requires point { p < length points.now.points }
    requires labels { AreLabels points.now labels.now }
    ensures { OnOk result (Adds (Joins labels.now.names (RowAt points.now p)) found.old found.new) }
{
    let f = points.function(p);
    let action = points.action(p);
    if is_local(action) {
        return put_local(points, labels, p, f, action, found);
    }
    if is_passing(action) {
        return put_passing(points, labels, p, f, action, found);
    }
    Ok(())
}
