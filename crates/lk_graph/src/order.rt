//! Orders of points in which loops over them end after few rounds.
ghost use Rattle.std.specs.Prelude.{◌≡◌, ◌<◌, All, IfOk, length};
ghost use Rattle.std.specs.List.{range_with_len};
ghost use Rattle.lk_graph.specs.Graph.{AreAllBelow};

use crate::steps::Steps;
use lk_base::NoMemory;
use lk_facts::Points;
use std::alloc::Global;

/// Each point, in an order in which control may come to them, the functions in the order of their numbers.
pub fn in_order(alloc: Global, points: &Points) -> Result<Vec<u32>, NoMemory>
    ensures { IfOk result (λ order. AreAllBelow (length points.now.points) order.items) }
{
    let functions = all_functions(alloc, points)?;
    in_order_of(alloc, points, &functions)
}

/// All functions, in the order of their numbers.
pub fn all_functions(alloc: Global, points: &Points) -> Result<Vec<u32>, NoMemory>
    ensures all { IfOk result (λ functions.
        functions.items ≡ range_with_len 0 (length points.now.functions)) }
    ensures below { IfOk result (λ functions. All (λ f. f < length points.now.functions) functions.items) }
{
    let mut functions = Vec::new(alloc);
    for function in 0..points.functions() {
        functions.push(function)?;
    }
    Ok(functions)
}

/// Each point, in an order in which control may come to them: those of one of these functions behind the
/// other, each point behind those that lead to it, cycles apart. Points to which no entry of these leads
/// stand first. Their order serves speed alone.
pub fn in_order_of(alloc: Global, points: &Points, functions: &[u32]) -> Result<Vec<u32>, NoMemory>
    requires { All (λ f. f < length points.now.functions) functions.now }
    ensures { IfOk result (λ order. AreAllBelow (length points.now.points) order.items) }
{
    let steps = Steps::All.graph(alloc, points)?;
    let entries = entries(alloc, points, functions)?;
    let mut order = steps.ends_first(alloc, &entries)?;
    order.reverse();
    Ok(order)
}

/// The entries of functions.
pub(crate) fn entries(
    alloc: Global,
    points: &Points,
    functions: &[u32],
) -> Result<Vec<u32>, NoMemory>
    requires { All (λ f. f < length points.now.functions) functions.now }
    ensures { IfOk result (λ entries. All (λ p. p < length points.now.points) entries.items) }
{
    let mut entries = Vec::new(alloc);
    for function in functions {
        entries.push(points.entry(*function))?;
    }
    Ok(entries)
}
