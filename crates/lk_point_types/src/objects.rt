//! Pointers to the objects of roots.
ghost use Rattle.std.specs.Prelude.{◌↔◌, ◌≡◌, ◌<◌, IsTrue, IfSome, length, Some, ℕ};
ghost use Rattle.lk_facts.specs.Program.{root_at, root_of_function};
ghost use Rattle.lk_facts.specs.Typed.{
  IsAllocated,
  IsCount,
  IsObjectIn,
  IsRootType,
  PointsTo,
};
ghost use Rattle.lk_facts.specs.declared.root.Root.{Root as RootIs};
ghost use Rattle.lk_facts.specs.declared.root.RootKind.TheVariants.{Local};

use crate::forms::form;
use crate::readers::{gives_kind, points_to};
use lk_base::Kind;
use lk_facts::{Points, RootKind};
use lk_types::{CType, TypeId};

/// Whether a number is there, and is this one.
pub(crate) fn is_at(there: Option<u32>, number: u32) -> bool
    ensures { IsTrue result ↔ (there ≡ Some number) }
{
    match there {
        Some(is) => is == number,
        None => false,
    }
}

/// Whether a root stands for an object of a function's frame.
pub(crate) fn is_local_of(points: &Points, f: u32, r: u32) -> bool
    requires { r < length points.now.roots }
    ensures { IsTrue result ↔
        ((root : RootIs) × (root_at points.now r ≡ Some root) × (root.kind ≡ Local) ×
        (root.function ≡ Some f)) }
{
    let root = points.root(r);
    matches!(root.kind, RootKind::Local) && is_at(root.function, f)
}

/// Whether a root stands for an object of static storage, or for one of a function's frame (C99 6.2.4).
pub(crate) fn is_object_in(points: &Points, f: u32, r: u32) -> bool
    requires { r < length points.now.roots }
    ensures { IsTrue result ↔ IsObjectIn points.now f r }
{
    let root = points.root(r);
    match root.kind {
        RootKind::Global | RootKind::Static => true,
        RootKind::Local => is_at(root.function, f),
        RootKind::Heap { .. }
        | RootKind::Text
        | RootKind::Argv
        | RootKind::Args
        | RootKind::Function => false,
    }
}

/// Whether a point gives a pointer to the type of a root.
pub(crate) fn points_to_root(points: &Points, p: u32, r: u32) -> bool
    requires p { p < length points.now.points }
    requires r { r < length points.now.roots }
    ensures { IsTrue result ↔ ((t : ℕ) × IsRootType points.now r t × PointsTo points.now p t) }
{
    points_to(points, p, points.root(r).ty)
}

/// Whether a point gives a pointer to a function.
pub(crate) fn points_to_function(points: &Points, p: u32, f: u32) -> bool
    requires p { p < length points.now.points }
    requires f { f < length points.now.functions }
    ensures { IsTrue result ↔
        ((r t : ℕ) × (root_of_function points.now f ≡ Some r) × IsRootType points.now r t ×
        PointsTo points.now p t) }
{
    points_to_root(points, p, points.function_root(f))
}

/// Whether a root is what a point allocates: one object of a type, or an array of it without a size where
/// there is a count (C99 7.20.3).
pub(crate) fn is_allocated(points: &Points, p: u32, r: u32, t: TypeId, count: Option<u32>) -> bool
    requires { r < length points.now.roots }
    ensures { IsTrue result ↔ IsAllocated points.now p r t count }
{
    let root = points.root(r);
    match (root.kind, count) {
        (RootKind::Heap { one: true }, None) => is_at(root.point, p) && root.ty == t,
        (RootKind::Heap { one: false }, Some(_)) => {
            let is_array = match form(points.types(), root.ty) {
                CType::Array(element, 0) => *element == t,
                CType::Array(_, _)
                | CType::Void
                | CType::Int(_)
                | CType::ThreadId
                | CType::Mutex
                | CType::Cond
                | CType::Pointer(_)
                | CType::Struct(_)
                | CType::Function { .. }
                | CType::Opaque(_) => false,
            };
            is_at(root.point, p) && is_array
        }
        (RootKind::Heap { one: true }, Some(_))
        | (RootKind::Heap { one: false }, None)
        | (
            RootKind::Global
            | RootKind::Static
            | RootKind::Local
            | RootKind::Text
            | RootKind::Argv
            | RootKind::Args
            | RootKind::Function,
            _,
        ) => false,
    }
}

/// Whether the number of the elements of an allocation is a `size_t` (C99 7.20.3).
pub(crate) fn is_count(points: &Points, count: Option<u32>) -> bool
    requires { IfSome count (λ n. n < length points.now.points) }
    ensures { IsTrue result ↔ IsCount points.now count }
{
    match count {
        Some(n) => gives_kind(points, n, Kind::ULong),
        None => true,
    }
}
