//! The edges of each action.
ghost use Rattle.std.specs.Prelude.{◌<◌, ◌⊎◌, ◌∷◌, [], ℕ, Bool, length, All, IfSome, OnOk};
ghost use Rattle.lk_facts.specs.EdgeRules.{GivesBack, In, Loc, Passes, Sub, place, target};
ghost use Rattle.lk_facts.specs.InRange.{IsHolderInRange, sizes_of};
ghost use Rattle.lk_facts.specs.LabelRules.{AreLabels, IsWhole};
ghost use Rattle.lk_facts.specs.declared.edge.Mark.TheVariants.{Plain};
ghost use Rattle.lk_facts.specs.declared.root.Holder.TheVariants.{Point};
ghost use Rattle.lk_types.specs.Nodes.{IsSel};
ghost use Rattle.lk_types.specs.declared.node.Sel.TheVariants.{Part};
ghost use Rattle.lk_flow.specs.Finding.{Finds};
ghost use Rattle.lk_flow.specs.Growing.{Adds, Joins};
ghost use Rattle.lk_flow.specs.Rows.{PassesAll, object_of};

use crate::found::Found;
use crate::names::{inside, place, pointee, target};
use lk_base::NoMemory;
use lk_facts::{Holder, Label, Labels, Mark, Points, Site};
use lk_types::{Sel, TypeId};

/// Joins what the values of two holders point to.
pub fn put_sub(
    points: &Points,
    labels: &Labels,
    from: Holder,
    to: Holder,
    mark: &Mark,
    found: &mut Found,
) -> Result<(), NoMemory>
    requires from { IsHolderInRange (sizes_of points.now) from }
    requires to { IsHolderInRange (sizes_of points.now) to }
    requires labels { AreLabels points.now labels.now }
    ensures { OnOk result (Adds (Joins labels.now.names
        (Sub points.now mark.now (IsWhole points.now from) (IsWhole points.now to)))
        found.old found.new) }
{
    let from = pointee(points, labels, from);
    let to = pointee(points, labels, to);
    found.put(from, to, mark)
}

/// Joins the place of a root with what a point points to.
pub fn put_address(
    points: &Points,
    labels: &Labels,
    r: u32,
    p: u32,
    found: &mut Found,
) -> Result<(), NoMemory>
    requires root { r < length points.now.roots }
    requires point { p < length points.now.points }
    requires labels { AreLabels points.now labels.now }
    ensures { OnOk result (Adds (Joins labels.now.names
        (Loc points.now Plain (place points.now r) (target points.now p))) found.old found.new) }
{
    let from = place(points, labels, r);
    let to = pointee(points, labels, Holder::Point(p));
    found.put(from, to, &Mark::Plain)
}

/// Joins a part of what an operand points to with what a point points to.
pub fn put_part(
    points: &Points,
    labels: &Labels,
    a: u32,
    sel: Sel,
    p: u32,
    found: &mut Found,
) -> Result<(), NoMemory>
    requires operand { a < length points.now.points }
    requires sel { IsSel points.now.types sel }
    requires point { p < length points.now.points }
    requires labels { AreLabels points.now labels.now }
    ensures { OnOk result (Adds (Joins labels.now.names
        (Loc points.now Plain (In points.now (target points.now a) sel) (target points.now p)))
        found.old found.new) }
{
    let place = pointee(points, labels, Holder::Point(a));
    let from = inside(points, labels, place, sel);
    let to = pointee(points, labels, Holder::Point(p));
    found.put(from, to, &Mark::Plain)
}

/// Joins what is read with what a point points to.
pub fn put_read(
    points: &Points,
    labels: &Labels,
    a: u32,
    p: u32,
    found: &mut Found,
) -> Result<(), NoMemory>
    requires operand { a < length points.now.points }
    requires point { p < length points.now.points }
    requires labels { AreLabels points.now labels.now }
    ensures { OnOk result (Adds (Joins labels.now.names
        (Sub points.now Plain (target points.now a) (IsWhole points.now (Point p))))
        found.old found.new) }
{
    let place = pointee(points, labels, Holder::Point(a));
    let from = target(points, labels, place);
    let to = pointee(points, labels, Holder::Point(p));
    found.put(from, to, &Mark::Plain)
}

/// Joins what is written with what the place points to.
pub fn put_write(
    points: &Points,
    labels: &Labels,
    a: u32,
    b: u32,
    found: &mut Found,
) -> Result<(), NoMemory>
    requires place { a < length points.now.points }
    requires operand { b < length points.now.points }
    requires labels { AreLabels points.now labels.now }
    ensures { OnOk result (Adds (Joins labels.now.names
        (Sub points.now Plain (IsWhole points.now (Point b)) (target points.now a)))
        found.old found.new) }
{
    let from = pointee(points, labels, Holder::Point(b));
    let place = pointee(points, labels, Holder::Point(a));
    let to = target(points, labels, place);
    found.put(from, to, &Mark::Plain)
}

/// Joins the arguments of a call or creation with the parameters of the function.
fn put_arguments(
    points: &Points,
    labels: &Labels,
    site: Site,
    f: u32,
    args: &[u32],
    found: &mut Found,
) -> Result<(), NoMemory>
    requires function { f < length points.now.functions }
    requires args { All (λ a. a < length points.now.points) args.now }
    requires labels { AreLabels points.now labels.now }
    ensures { OnOk result (Adds (Joins labels.now.names
        (PassesAll points.now site f args.now)) found.old found.new) }
{
    let parameters = points.parameters(f);
    for k in 0..args.len().min(parameters.len()) {
        let from = Holder::Point(args[k]);
        put_sub(
            points,
            labels,
            from,
            parameters[k],
            &Mark::Enter(site),
            found,
        )?;
    }
    Ok(())
}

/// Joins the arguments of a call with the parameters, and the result with what the call gives.
pub fn put_call(
    points: &Points,
    labels: &Labels,
    p: u32,
    g: u32,
    args: &[u32],
    found: &mut Found,
) -> Result<(), NoMemory>
    requires point { p < length points.now.points }
    requires function { g < length points.now.functions }
    requires args { All (λ a. a < length points.now.points) args.now }
    requires labels { AreLabels points.now labels.now }
    ensures { OnOk result (Adds (Joins labels.now.names
        (λ u v m. Passes points.now p g args.now u v m ⊎ GivesBack points.now p g u v m))
        found.old found.new) }
{
    match points.site(p) {
        Some(site) => {
            put_arguments(points, labels, site, g, args, found)?;
            let from = Holder::Result(g);
            put_sub(
                points,
                labels,
                from,
                Holder::Point(p),
                &Mark::Leave(site),
                found,
            )
        }
        None => Ok(()),
    }
}

/// Joins the argument of a creation with the parameter of the function.
pub fn put_create(
    points: &Points,
    labels: &Labels,
    p: u32,
    g: u32,
    a: u32,
    found: &mut Found,
) -> Result<(), NoMemory>
    requires point { p < length points.now.points }
    requires function { g < length points.now.functions }
    requires operand { a < length points.now.points }
    requires labels { AreLabels points.now labels.now }
    ensures { OnOk result (Adds (Joins labels.now.names
        (Passes points.now p g (a ∷ []))) found.old found.new) }
{
    match points.site(p) {
        Some(site) => put_arguments(points, labels, site, g, &[a], found),
        None => Ok(()),
    }
}

/// What an allocation makes: the object of its root, or an element of the array.
pub fn object(points: &Points, labels: &Labels, r: u32, is_array: bool) -> Option<Label>
    requires root { r < length points.now.roots }
    requires labels { AreLabels points.now labels.now }
    ensures found { Finds labels.now.names (object_of points.now r is_array) result }
    ensures in_range { IfSome result (λ l. l < length labels.now.entries) }
{
    let object = place(points, labels, r);
    if is_array {
        return inside(points, labels, object, Sel::Element);
    }
    object
}

/// Joins what an allocation makes with the Part of its type.
pub fn put_allocation(
    points: &Points,
    labels: &Labels,
    ty: TypeId,
    object: Option<Label>,
    p: u32,
    found: &mut Found,
) -> Result<(), NoMemory>
    requires ty { ty < length points.now.types.types }
    requires point { p < length points.now.points }
    requires labels { AreLabels points.now labels.now }
    ensures { OnOk result ((r : ℕ) (is_array : Bool) →
        Finds labels.now.names (object_of points.now r is_array) object →
        Adds (Joins labels.now.names (Loc points.now Plain (object_of points.now r is_array)
        (In points.now (target points.now p) (Part ty)))) found.old found.new) }
{
    let void = pointee(points, labels, Holder::Point(p));
    let to = inside(points, labels, void, Sel::Part(ty));
    found.put(object, to, &Mark::Plain)
}
