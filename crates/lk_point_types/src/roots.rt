//! The objects of texts and of main's arguments (C99 5.1.2.2.1, 6.4.5).
ghost use Rattle.std.specs.Prelude.{◌≡◌, ◌↔◌, ◌<◌, IsTrue, IfSome, MatchOption, length, ℕ};
ghost use Rattle.lk_base.specs.declared.kind.Kind.TheVariants.{Char};
ghost use Rattle.lk_facts.specs.Lowered.{HasStrings, IsArgument, IsString, IsText};
ghost use Rattle.lk_facts.specs.Typed.{IsForm};
ghost use Rattle.lk_point_types.specs.Each.{IsMainTyped};
ghost use Rattle.lk_facts.specs.declared.root.RootKind.TheVariants.{Args};
ghost use Rattle.lk_types.specs.Table.{IsKnown};
ghost use Rattle.lk_types.specs.declared.c_type.CType.TheVariants.{Array, Int, Pointer};

use crate::forms::{form, target_of};
use crate::functions::held_type;
use lk_base::Kind;
use lk_facts::{Points, Root, RootKind};
use lk_types::{CType, TypeId, TypeTable};

/// Whether a type is plain `char`.
fn is_char(types: &TypeTable, t: TypeId) -> bool
    requires { IsKnown types.now t }
    ensures { IsTrue result ↔ IsForm types.now t (Int Char) }
{
    matches!(form(types, t), CType::Int(Kind::Char))
}

/// The elements of an array type, and how many there are.
fn array_of(types: &TypeTable, t: TypeId) -> Option<(TypeId, u64)>
    requires { IsKnown types.now t }
    ensures form { MatchOption result ((element n : ℕ) → IsForm types.now t (Array element n) → ⊥)
        (λ array. IsForm types.now t (Array array.0 array.1)) }
    ensures known { IfSome result (λ array. IsKnown types.now array.0) }
{
    match form(types, t) {
        CType::Array(element, size) => Some((*element, *size)),
        CType::Void
        | CType::Int(_)
        | CType::ThreadId
        | CType::Mutex
        | CType::Cond
        | CType::Pointer(_)
        | CType::Struct(_)
        | CType::Function { .. }
        | CType::Opaque(_) => None,
    }
}

/// Whether a root is that of a text: an array of the `char` that it has bytes for (C99 6.4.5).
pub(crate) fn is_text(points: &Points, r: u32) -> bool
    requires { r < length points.now.roots }
    ensures { IsTrue result ↔ IsText points.now r }
{
    let root = points.root(r);
    if !matches!(root.kind, RootKind::Text) {
        return false;
    }
    match array_of(points.types(), root.ty) {
        Some((element, size)) => {
            size == root.bytes.len() as u64 && is_char(points.types(), element)
        }
        None => false,
    }
}

/// Whether a type is of pointers to `char`.
fn is_string(points: &Points, t: TypeId) -> bool
    requires { IsKnown points.now.types t }
    ensures { IsTrue result ↔ IsString points.now t }
{
    match target_of(points.types(), t) {
        Some(target) => is_char(points.types(), target),
        None => false,
    }
}

/// Whether a root is that of the strings of main's arguments.
fn is_of_strings(root: &Root) -> bool
    ensures { IsTrue result ↔ (root.now.kind ≡ Args) }
{
    matches!(root.kind, RootKind::Args)
}

/// Whether the strings of main's arguments have a root.
fn has_strings(points: &Points) -> bool
    ensures { IsTrue result ↔ HasStrings points.now }
{
    for r in 0..points.roots() {
        if is_of_strings(points.root(r)) {
            return true;
        }
    }
    false
}

/// Whether a root, where it is one of main's arguments, is the array of the pointers to the strings, which
/// have a root, or their chars.
pub(crate) fn is_argument(points: &Points, root: &Root) -> bool
    requires { IsKnown points.now.types root.now.ty }
    ensures { IsTrue result ↔ IsArgument points.now root.now.kind root.now.ty }
{
    match root.kind {
        RootKind::Argv => match array_of(points.types(), root.ty) {
            Some((string, _)) => is_string(points, string) && has_strings(points),
            None => false,
        },
        RootKind::Args => match array_of(points.types(), root.ty) {
            Some((element, _)) => is_char(points.types(), element),
            None => false,
        },
        RootKind::Global
        | RootKind::Static
        | RootKind::Local
        | RootKind::Heap { .. }
        | RootKind::Text
        | RootKind::Function => true,
    }
}

/// Whether a type is of pointers to pointers to `char`.
fn is_argv(points: &Points, t: TypeId) -> bool
    requires { IsKnown points.now.types t }
    ensures { IsTrue result ↔
        ((string : ℕ) × IsForm points.now.types t (Pointer string) × IsString points.now string) }
{
    match target_of(points.types(), t) {
        Some(string) => is_string(points, string),
        None => false,
    }
}

/// Whether the second parameter of `main`, where there is one, is a pointer to
/// pointers to `char` (C99 5.1.2.2.1).
pub(crate) fn is_main_typed(points: &Points) -> bool
    ensures { IsTrue result ↔ IsMainTyped points.now }
{
    let Some(holder) = points.param(points.main(), 2) else {
        return true;
    };
    match held_type(points, holder) {
        Some(t) => is_argv(points, t),
        None => true,
    }
}
