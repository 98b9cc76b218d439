//! Where functions begin and end, and the roots that stand for them.
ghost use Rattle.std.specs.Prelude.{◌≡◌, ◌↔◌, ◌<◌, IsTrue, length};
ghost use Rattle.lk_facts.specs.Program.{function_of_kind};
ghost use Rattle.lk_point_ways.specs.Kept as kept;

use crate::actions::is_skip;
use crate::standing::stands;
use lk_facts::{Points, Root, RootKind};

/// The function that a root stands for.
fn function_of(root: &Root) -> Option<u32>
    ensures { result ≡ function_of_kind root.now.kind root.now.function }
{
    match root.kind {
        RootKind::Function => root.function,
        RootKind::Global
        | RootKind::Static
        | RootKind::Local
        | RootKind::Heap { .. }
        | RootKind::Text
        | RootKind::Argv
        | RootKind::Args => None,
    }
}

/// Whether the root of a function stands for it.
fn has_own_root(points: &Points, f: u32) -> bool
    requires { f < length points.now.functions }
    ensures { IsTrue result ↔ kept.HasOwnRoot points.now f }
{
    function_of(points.root(points.function_root(f))) == Some(f)
}

/// Whether a point does nothing, and stands in a function.
fn is_skip_in(points: &Points, f: u32, p: u32) -> bool
    requires { p < length points.now.points }
    ensures { IsTrue result ↔ kept.IsSkipIn points.now f p }
{
    stands(points, f, p) && is_skip(points.action(p))
}

/// Whether a function begins with a point of its own that does nothing.
fn has_entry(points: &Points, f: u32) -> bool
    requires { f < length points.now.functions }
    ensures { IsTrue result ↔ kept.HasEntry points.now f }
{
    is_skip_in(points, f, points.entry(f))
}

/// Whether a function ends with a point of its own that does nothing and leads nowhere.
fn has_exit(points: &Points, f: u32) -> bool
    requires { f < length points.now.functions }
    ensures { IsTrue result ↔ kept.HasExit points.now f }
{
    let exit = points.exit(f);
    is_skip_in(points, f, exit) && points.next(exit).is_empty()
}

/// Whether a function begins and ends with points of its own, and its root stands for it.
fn keeps_function(points: &Points, f: u32) -> bool
    requires { f < length points.now.functions }
    ensures { IsTrue result ↔ kept.KeepsFunction points.now f }
{
    has_own_root(points, f) && has_entry(points, f) && has_exit(points, f)
}

/// Whether each function begins and ends with points of its own, and its root stands for it.
pub(crate) fn keep_functions(points: &Points) -> bool
    ensures { IsTrue result ↔ kept.KeepFunctions points.now }
{
    for f in 0..points.functions() {
        if !keeps_function(points, f) {
            return false;
        }
    }
    true
}

/// Whether a root is that of the function for which it stands, where it stands for one.
fn keeps_root(points: &Points, r: u32) -> bool
    requires { r < length points.now.roots }
    ensures { IsTrue result ↔ kept.KeepsRoot points.now r }
{
    match function_of(points.root(r)) {
        Some(f) => points.function_root(f) == r,
        None => true,
    }
}

/// Whether each root is that of the function for which it stands, where it stands for one.
pub(crate) fn keep_roots(points: &Points) -> bool
    ensures { IsTrue result ↔ kept.KeepRoots points.now }
{
    for r in 0..points.roots() {
        if !keeps_root(points, r) {
            return false;
        }
    }
    true
}
