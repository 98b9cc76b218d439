//! What holders are: their types, and which of them are there but once.
ghost use Rattle.std.specs.Prelude.{◌≡◌, ◌↔◌, ℕ, Some, IfSome};
ghost use Rattle.lk_facts.specs.LabelRules.{IsHolder, is_global_kind, is_global_holder};
ghost use Rattle.lk_facts.specs.Typed.{IsHolderType};
ghost use Rattle.lk_types.specs.Table.{IsKnown};

use lk_facts::{Holder, Points, RootKind};
use lk_types::TypeId;

/// The type of a holder.
pub fn holder_type(points: &Points, holder: Holder) -> Option<TypeId>
    requires { IsHolder points.now holder }
    ensures exact { (t : ℕ) → IsHolderType points.now holder t ↔ (result ≡ Some t) }
    ensures known { IfSome result (IsKnown points.now.types) }
{
    match holder {
        Holder::Root(r) => Some(points.root(r).ty),
        Holder::Slot(f, s) => points.slots(f).get(s as usize).copied(),
        Holder::Result(f) => Some(points.result(f)),
        Holder::Point(p) => points.value_type(p),
    }
}

/// Whether a root of this kind is there but once: it is no local and no allocation.
fn is_global_kind(kind: RootKind) -> bool
    ensures { result ≡ is_global_kind kind }
{
    match kind {
        RootKind::Global
        | RootKind::Static
        | RootKind::Text
        | RootKind::Argv
        | RootKind::Args
        | RootKind::Function => true,
        RootKind::Local | RootKind::Heap { .. } => false,
    }
}

/// Whether a holder is there but once: a root of such a kind, or a point of a static initialiser.
pub fn is_global_holder(points: &Points, holder: Holder) -> bool
    requires { IsHolder points.now holder }
    ensures { result ≡ is_global_holder points.now holder }
{
    match holder {
        Holder::Root(r) => is_global_kind(points.root(r).kind),
        Holder::Slot(_, _) | Holder::Result(_) => false,
        Holder::Point(p) => points.function(p) == points.functions(),
    }
}
