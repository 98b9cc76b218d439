//! The order in which racing accesses are told.
ghost use Rattle.std.specs.Prelude.{◌≡◌, IfOk};
ghost use Rattle.std.specs.List.Sorted.{IsPermutation};
ghost use Rattle.lk_report.specs.Order.{access_cmp, in_order, spot_at};

use lk_base::{NoMemory, Spot};
use lk_facts::{Points, Racing};
use std::alloc::Global;
use std::cmp::Ordering;

/// The place of a point, or zeros past the last.
fn spot_at(points: &Points, p: u32) -> Spot
    ensures { result ≡ spot_at points.now p }
{
    if p < points.count() {
        points.spot(p)
    } else {
        Spot {
            file: 0,
            line: 0,
            col: 0,
        }
    }
}

/// How two accesses compare: by their places, and at one place by their points.
fn access_cmp(points: &Points, a: &Racing, b: &Racing) -> Ordering
    ensures { result ≡ access_cmp points.now a.now b.now }
{
    let spots = spot_at(points, a.access).cmp(&spot_at(points, b.access));
    spots.then(a.access.cmp(&b.access))
}

/// An equal access.
fn copy_of(racing: &Racing) -> Result<Racing, NoMemory>
    ensures { IfOk result (λ copy. copy ≡ racing.now) }
{
    let locks = racing.locks.copy()?;
    Ok(Racing {
        access: racing.access,
        locks,
    })
}

/// Equal accesses, in their order.
fn copies_of(alloc: Global, accesses: &[Racing]) -> Result<Vec<Racing>, NoMemory>
    ensures { IfOk result (λ copies. copies.items ≡ accesses.now) }
{
    let mut copies = Vec::new(alloc);
    for racing in accesses {
        let copy = copy_of(racing)?;
        copies.push(copy)?;
    }
    Ok(copies)
}

/// The accesses in the order of their places; those of one place in that of their points.
pub(crate) fn in_order(
    alloc: Global,
    points: &Points,
    accesses: &[Racing],
) -> Result<Vec<Racing>, NoMemory>
    ensures value { IfOk result (λ told. told.items ≡ in_order points.now accesses.now) }
    ensures permutation { IfOk result (λ told. IsPermutation accesses.now told.items) }
{
    let mut told = copies_of(alloc, accesses)?;
    told.sort_by(|a, b| access_cmp(points, a, b))?;
    Ok(told)
}
