//! Steps from an object to a part of it.
ghost use Rattle.std.specs.Prelude.{◌≡◌, ◌++◌, ◌∷◌, ◌↔◌, [], IfOk, IsTrue};
ghost use Rattle.lk_typed.specs.Absent as spec;
ghost use Rattle.lk_typed.specs.Stands.{IsIn};
ghost use Rattle.lk_elab_init.specs.Steps.{is_alike_step};

use lk_base::{CellStep, NoMemory, Seq};
use std::alloc::Global;

/// These steps, of their own.
pub fn path_of(alloc: Global, path: &[CellStep]) -> Result<Seq<CellStep>, NoMemory>
    ensures { IfOk result (λ steps. steps ≡ path.now) }
{
    let steps = Vec::from_slice(alloc, path)?;
    Ok(Seq::new(steps))
}

/// These steps and one more, of their own.
pub fn longer_path(
    alloc: Global,
    path: &[CellStep],
    step: CellStep,
) -> Result<Seq<CellStep>, NoMemory>
    ensures { IfOk result (λ steps. steps ≡ path.now ++ step ∷ []) }
{
    let mut steps = Vec::from_slice(alloc, path)?;
    steps.push(step)?;
    Ok(Seq::new(steps))
}

/// A step and these behind it, of their own.
pub(crate) fn longer_front(
    alloc: Global,
    step: CellStep,
    path: &[CellStep],
) -> Result<Seq<CellStep>, NoMemory>
    ensures { IfOk result (λ steps. steps ≡ step ∷ path.now) }
{
    let mut steps = Vec::new(alloc);
    steps.push(step)?;
    steps.extend_from_slice(path)?;
    Ok(Seq::new(steps))
}

/// Whether two steps are one.
fn are_same_steps(a: CellStep, b: CellStep) -> bool
    ensures { IsTrue result ↔ (a ≡ b) }
{
    match (a, b) {
        (CellStep::Field(a), CellStep::Field(b)) => a == b,
        (CellStep::Index(a), CellStep::Index(b)) => a == b,
        (CellStep::Field(_), CellStep::Index(_)) | (CellStep::Index(_), CellStep::Field(_)) =>
            false,
    }
}

/// Whether two paths are one.
pub(crate) fn are_same_paths(a: &[CellStep], b: &[CellStep]) -> bool
    ensures { IsTrue result ↔ (a.now ≡ b.now) }
{
    match (a.split_first(), b.split_first()) {
        (Some((a, others)), Some((b, rest))) => {
            are_same_steps(*a, *b) && are_same_paths(others, rest)
        }
        (None, None) => true,
        (Some(_), None) | (None, Some(_)) => false,
    }
}

/// Whether a path is one of these.
pub(crate) fn is_path_among(path: &[CellStep], paths: &[Seq<CellStep>]) -> bool
    ensures { IsTrue result ↔ IsIn path.now paths.now }
{
    for other in paths {
        if are_same_paths(path, other.list()) {
            return true;
        }
    }
    false
}

/// Whether two steps differ in indices alone.
fn are_alike_steps(a: CellStep, b: CellStep) -> bool
    ensures { result ≡ is_alike_step a b }
{
    match (a, b) {
        (CellStep::Field(a), CellStep::Field(b)) => a == b,
        (CellStep::Index(_), CellStep::Index(_)) => true,
        (CellStep::Field(_), CellStep::Index(_)) | (CellStep::Index(_), CellStep::Field(_)) =>
            false,
    }
}

/// Whether two paths differ in indices alone.
pub(crate) fn are_alike(a: &[CellStep], b: &[CellStep]) -> bool
    ensures { result ≡ spec.are_alike a.now b.now }
{
    match (a.split_first(), b.split_first()) {
        (Some((a, others)), Some((b, rest))) => are_alike_steps(*a, *b) && are_alike(others, rest),
        (None, None) => true,
        (Some(_), None) | (None, Some(_)) => false,
    }
}
