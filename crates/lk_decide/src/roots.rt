//! The roots of objects: string literals, and what an allocation gave.
ghost use Rattle.std.specs.Prelude.{◌≡◌, IfOk};
ghost use Rattle.std.specs.Option.{option_copied};
ghost use Rattle.lk_decide.specs.Roots as spec;

use lk_base::{CellStep, NoMemory};
use lk_cells::{State, object_at, part_of};
use lk_facts::{Points, RootKind};
use lk_values::{Path, Value, Why};
use std::alloc::Global;

/// The kind of a root.
fn root_kind(points: &Points, root: u32) -> Option<RootKind>
    ensures { result ≡ spec.root_kind points.now root }
{
    if root < points.roots() {
        Some(points.root(root).kind)
    } else {
        None
    }
}

/// The kind of the root of an object.
pub(crate) fn kind_of_object(points: &Points, state: &State, object: u32) -> Option<RootKind>
    ensures { result ≡ spec.kind_of_object points.now state.now object }
{
    let found = object_at(state, object)?;
    root_kind(points, found.root)
}

/// Whether a root is a string literal.
fn is_text(kind: RootKind) -> bool
    ensures { result ≡ spec.is_text kind }
{
    match kind {
        RootKind::Text => true,
        RootKind::Global
        | RootKind::Static
        | RootKind::Local
        | RootKind::Heap { .. }
        | RootKind::Argv
        | RootKind::Args
        | RootKind::Function => false,
    }
}

/// Where the pointer that an allocation gives leads to in its object (C99 7.20.3).
pub(crate) fn start_of(alloc: Global, kind: RootKind) -> Result<Option<Path>, NoMemory>
    ensures { IfOk result (λ path. path ≡ spec.start_of kind) }
{
    match kind {
        RootKind::Heap { one: true } => Ok(Some(Path::empty(alloc))),
        RootKind::Heap { one: false } => {
            let path = Path::empty(alloc).with(CellStep::Index(0))?;
            Ok(Some(path))
        }
        RootKind::Global
        | RootKind::Static
        | RootKind::Local
        | RootKind::Text
        | RootKind::Argv
        | RootKind::Args
        | RootKind::Function => Ok(None),
    }
}

/// A string literal isn't written (C99 6.4.5, 6).
pub(crate) fn constant(points: &Points, state: &State, value: Option<&Value>) -> Option<Why>
    ensures { result ≡ spec.constant points.now state.now (option_copied value.entry) }
{
    let part = part_of(state, value)?;
    let kind = kind_of_object(points, state, part.object)?;
    Why::ConstText.when(is_text(kind))
}
