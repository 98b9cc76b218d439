//! The holders of a program, in their order.
ghost use Rattle.std.specs.Prelude.{◌<◌, ◌+◌, length, IfOk, OnOk};
ghost use Rattle.lk_facts.specs.LabelRules.{AreHolders};
ghost use Rattle.lk_facts.specs.declared.root.Holder.TheVariants.{Slot, Point};
ghost use Rattle.lk_label.specs.Holding.{AreBelow};

use lk_base::NoMemory;
use lk_facts::{Holder, Points};
use std::alloc::Global;

/// Puts the slots of a function behind the holders.
fn push_slots(points: &Points, f: u32, holders: &mut Vec<Holder>) -> Result<(), NoMemory>
    requires { f < length points.now.functions }
    ensures { OnOk result (AreBelow points.now (Slot f 0) holders.old.items → AreBelow points.now (Slot (f + 1) 0) holders.new.items) }
{
    for slot in 0..points.slots(f).len() as u32 {
        holders.push(Holder::Slot(f, slot))?;
    }
    Ok(())
}

/// Puts a point behind the holders, where it gives a value.
fn push_point(points: &Points, p: u32, holders: &mut Vec<Holder>) -> Result<(), NoMemory>
    requires { p < length points.now.points }
    ensures { OnOk result (AreBelow points.now (Point p) holders.old.items → AreBelow points.now (Point (p + 1)) holders.new.items) }
{
    if points.value_type(p).is_some() {
        holders.push(Holder::Point(p))?;
    }
    Ok(())
}

/// All holders: the roots, the slots, the results and the points that give a value.
pub fn all_holders(alloc: Global, points: &Points) -> Result<Vec<Holder>, NoMemory>
    ensures { IfOk result (λ holders. AreHolders points.now holders.items) }
{
    let mut holders = Vec::new(alloc);
    for r in 0..points.roots() {
        holders.push(Holder::Root(r))?;
    }
    for f in 0..points.functions() {
        push_slots(points, f, &mut holders)?;
    }
    for f in 0..points.functions() {
        holders.push(Holder::Result(f))?;
    }
    for p in 0..points.count() {
        push_point(points, p, &mut holders)?;
    }
    Ok(holders)
}
