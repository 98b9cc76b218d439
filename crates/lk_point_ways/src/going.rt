//! How control goes on from the points of a function.
ghost use Rattle.std.specs.Prelude.{◌≡◌, ◌↔◌, ◌<◌, ◌∷◌, [], IsTrue, length};
ghost use Rattle.lk_point_ways.specs.Kept as kept;

use crate::actions::{has_ways, is_return};
use crate::naming::avoids_main;
use crate::standing::{has_own_operands, has_own_successors};
use crate::waiting::retakes;
use lk_facts::Points;

/// Whether a point leads nowhere but to one point.
fn is_only(next: &[u32], p: u32) -> bool
    ensures { IsTrue result ↔ (next.now ≡ p ∷ []) }
{
    next.len() == 1 && next[0] == p
}

/// Whether a point doesn't lead to the entry of a function.
fn avoids_entry(points: &Points, function: u32, p: u32) -> bool
    requires point { p < length points.now.points }
    requires function { function < length points.now.functions }
    ensures { IsTrue result ↔ kept.AvoidsEntry points.now function p }
{
    !points.next(p).contains(&points.entry(function))
}

/// Whether a point leads to the exit of a function, where it returns (C99 6.8.6.4).
fn returns_to_exit(points: &Points, function: u32, p: u32) -> bool
    requires point { p < length points.now.points }
    requires function { function < length points.now.functions }
    ensures { IsTrue result ↔ kept.ReturnsToExit points.now function p }
{
    !is_return(points.action(p)) || is_only(points.next(p), points.exit(function))
}

/// Whether a point has as many successors as its action asks for, or is the exit of a function.
fn has_its_ways(points: &Points, function: u32, p: u32) -> bool
    requires point { p < length points.now.points }
    requires function { function < length points.now.functions }
    ensures { IsTrue result ↔ kept.HasWays points.now function p }
{
    p == points.exit(function) || has_ways(points.action(p), points.next(p).len())
}

/// Whether control goes on from a point as it does in a function.
fn goes_on(points: &Points, function: u32, p: u32) -> bool
    requires point { p < length points.now.points }
    requires function { function < length points.now.functions }
    ensures { IsTrue result ↔ kept.GoesOn points.now function p }
{
    avoids_entry(points, function, p)
        && returns_to_exit(points, function, p)
        && has_its_ways(points, function, p)
}

/// Whether control goes on from a point inside its function, a wait takes its mutex again,
/// and nothing leads to `main`.
fn keeps_point(points: &Points, p: u32) -> bool
    requires { p < length points.now.points }
    ensures { IsTrue result ↔ kept.KeepsPoint points.now p }
{
    let function = points.function(p);
    has_own_operands(points, p)
        && has_own_successors(points, p)
        && retakes(points, p)
        && avoids_main(points, p)
        && (function >= points.functions() || goes_on(points, function, p))
}

/// Whether control goes on from each point inside its function.
pub(crate) fn keep_points(points: &Points) -> bool
    ensures { IsTrue result ↔ kept.KeepPoints points.now }
{
    for p in 0..points.count() {
        if !keeps_point(points, p) {
            return false;
        }
    }
    true
}
