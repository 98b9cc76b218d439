//! The edges of calls through pointers, and of functions that are used as values.
ghost use Rattle.std.specs.Prelude.{◌<◌, ◌⊎◌, length, All, OnOk};
ghost use Rattle.lk_facts.specs.EdgeRules.{Of, PassesThrough, Sub, code, target, value};
ghost use Rattle.lk_facts.specs.InRange.{IsHolderInRange, sizes_of};
ghost use Rattle.lk_facts.specs.LabelRules.{AreLabels, IsWhole};
ghost use Rattle.lk_facts.specs.declared.edge.Mark.TheVariants.{Enter, Plain};
ghost use Rattle.lk_types.specs.declared.node.Sel.TheVariants.{Field};
ghost use Rattle.lk_flow.specs.Growing.{Adds, Joins};
ghost use Rattle.lk_flow.specs.Counting.{AnyOf, ParameterOf, ValueAt};

use crate::found::Found;
use crate::names::{behind, place, pointee};
use lk_base::NoMemory;
use lk_facts::{Holder, Labels, Mark, Points, Site};

/// More than the fields of any type: a type of a table has at most 65,537 nodes.
const FIELD_BOUND: usize = 65_537;

/// Joins what an argument of a call through a pointer points to with what the
/// parameter `k` of the function does.
fn put_pointer_argument(
    points: &Points,
    labels: &Labels,
    a: u32,
    b: u32,
    k: u32,
    found: &mut Found,
) -> Result<(), NoMemory>
    requires operand { a < length points.now.points }
    requires argument { b < length points.now.points }
    requires labels { AreLabels points.now labels.now }
    ensures { OnOk result (Adds (Joins labels.now.names
        (Sub points.now Plain (value points.now b) (Of points.now (target points.now a) (Field k))))
        found.old found.new) }
{
    let code = pointee(points, labels, Holder::Point(a));
    let from = pointee(points, labels, Holder::Point(b));
    let to = behind(points, labels, code, k);
    found.put(from, to, &Mark::Plain)
}

/// Joins what the arguments of a call through a pointer point to with what the parameters of the function do.
fn put_pointer_arguments(
    points: &Points,
    labels: &Labels,
    a: u32,
    args: &[u32],
    found: &mut Found,
) -> Result<(), NoMemory>
    requires operand { a < length points.now.points }
    requires args { All (λ b. b < length points.now.points) args.now }
    requires labels { AreLabels points.now labels.now }
    ensures { OnOk result (Adds (Joins labels.now.names
        (PassesThrough points.now a args.now)) found.old found.new) }
{
    points.types().is_table();
    for k in 0..args.len().min(FIELD_BOUND) {
        put_pointer_argument(points, labels, a, args[k], k as u32 + 1, found)?;
    }
    Ok(())
}

/// Joins the arguments of a call through a pointer with the parameters, and the
/// result with what the call gives.
pub fn put_pointer_call(
    points: &Points,
    labels: &Labels,
    p: u32,
    a: u32,
    args: &[u32],
    found: &mut Found,
) -> Result<(), NoMemory>
    requires point { p < length points.now.points }
    requires operand { a < length points.now.points }
    requires args { All (λ b. b < length points.now.points) args.now }
    requires labels { AreLabels points.now labels.now }
    ensures { OnOk result (Adds (Joins labels.now.names
        (λ u v m. PassesThrough points.now a args.now u v m
        ⊎ Sub points.now Plain (Of points.now (target points.now a) (Field 0)) (value points.now p) u v m))
        found.old found.new) }
{
    put_pointer_arguments(points, labels, a, args, found)?;
    let code = pointee(points, labels, Holder::Point(a));
    let from = behind(points, labels, code, 0);
    let to = pointee(points, labels, Holder::Point(p));
    found.put(from, to, &Mark::Plain)
}

/// Joins what the parameter `k` of the type of a function points to with what the
/// parameter of the function does.
fn put_parameter(
    points: &Points,
    labels: &Labels,
    g: u32,
    k: u32,
    parameter: Holder,
    site: Site,
    found: &mut Found,
) -> Result<(), NoMemory>
    requires function { g < length points.now.functions }
    requires parameter { IsHolderInRange (sizes_of points.now) parameter }
    requires labels { AreLabels points.now labels.now }
    ensures { OnOk result (Adds (Joins labels.now.names
        (Sub points.now (Enter site) (Of points.now (code points.now g) (Field k))
        (IsWhole points.now parameter)))
        found.old found.new) }
{
    let code = place(points, labels, points.function_root(g));
    let from = behind(points, labels, code, k);
    let to = pointee(points, labels, parameter);
    found.put(from, to, &Mark::Enter(site))
}

/// Joins what the parameters of the type of a function point to with what those of the function do.
fn put_passed(
    points: &Points,
    labels: &Labels,
    g: u32,
    site: Site,
    found: &mut Found,
) -> Result<(), NoMemory>
    requires function { g < length points.now.functions }
    requires labels { AreLabels points.now labels.now }
    ensures { OnOk result (Adds (Joins labels.now.names
        (AnyOf (ParameterOf points.now g site))) found.old found.new) }
{
    points.types().is_table();
    let parameters = points.parameters(g);
    for k in 0..parameters.len().min(FIELD_BOUND) {
        put_parameter(points, labels, g, k as u32 + 1, parameters[k], site, found)?;
    }
    Ok(())
}

/// Joins the parameters and the result of a function that is used as a value with those of its type.
pub fn put_value(
    points: &Points,
    labels: &Labels,
    g: u32,
    found: &mut Found,
) -> Result<(), NoMemory>
    requires function { g < length points.now.functions }
    requires labels { AreLabels points.now labels.now }
    ensures { OnOk result (Adds (Joins labels.now.names (ValueAt points.now g)) found.old found.new) }
{
    match points.value_site(g) {
        Some(site) => {
            put_passed(points, labels, g, site, found)?;
            let code = place(points, labels, points.function_root(g));
            let from = pointee(points, labels, Holder::Result(g));
            let to = behind(points, labels, code, 0);
            found.put(from, to, &Mark::Leave(site))
        }
        None => Ok(()),
    }
}
