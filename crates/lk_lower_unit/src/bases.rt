//! Numbers of what nodes of sources have, in their order.
ghost use Rattle.std.specs.Prelude.{◌≡◌, ◌<◌, ◌≤◌, ◌+◌, ◌++◌, ◌∷◌, [], IfOk, OnOk, Err};
ghost use Rattle.std.specs.List.{sum};
ghost use Rattle.lk_lower_unit.specs.Counting.{AreBases, total};
ghost use Rattle.lk_lower_unit.specs.Prefixes.{sums_from};
ghost use Rattle.lk_lower_unit.specs.declared.fault.CountFault.TheVariants.{TooMany};

use crate::fault::CountFault;
use lk_base::Seq;
use std::alloc::Global;

/// The numbers that what nodes of sources have gets, in the order of the sources and of the nodes.
#[derive(Drop)]
pub struct Bases {
    /// Of each node of each source the number of the first thing that it has.
    pub bases: Seq<Seq<u32>>,
    /// How many numbers there are.
    pub count: u32,
}

/// The number behind some others, where that is at most `most`.
fn behind(next: u32, count: u32, most: u32) -> Result<u32, CountFault>
    ensures next { IfOk result (λ on. on ≡ next + count) }
    ensures few { IfOk result (λ on. on ≤ most) }
    ensures many { result ≡ Err TooMany → most < next + count }
{
    match next.checked_add(count) {
        Some(on) if on <= most => Ok(on),
        Some(_) | None => Err(CountFault::TooMany),
    }
}

/// Puts the numbers of the nodes of one source at the end of others, from `first` on.
/// Answers the number behind them.
fn push_row(
    alloc: Global,
    counts: &[u32],
    first: u32,
    most: u32,
    rows: &mut Vec<Seq<u32>>,
) -> Result<u32, CountFault>
    requires { first ≤ most }
    ensures rows { OnOk result (rows.new.items ≡ rows.old.items ++ sums_from first counts.now ∷ []) }
    ensures next { IfOk result (λ next. next ≡ first + sum counts.now) }
    ensures few { IfOk result (λ next. next ≤ most) }
    ensures many { result ≡ Err TooMany → most < first + sum counts.now }
{
    let mut row = Vec::new(alloc);
    let mut next = first;
    for count in counts {
        row.push(next)?;
        next = behind(next, *count, most)?;
    }
    rows.push(Seq::new(row))?;
    Ok(next)
}

/// Numbers all that nodes of sources have, in the order of the sources and of the nodes, from `first` on:
/// `counts` says of each node of each source how many things that are.
///
/// `TooMany` comes exactly where one of them would have a number of `most` or
/// above, unless memory ends first.
pub fn bases_of(
    alloc: Global,
    counts: &[Seq<u32>],
    first: u32,
    most: u32,
) -> Result<Bases, CountFault>
    requires { first ≤ most }
    ensures ok { IfOk result (AreBases counts.now first most) }
    ensures many { result ≡ Err TooMany → most < first + total counts.now }
{
    let mut rows = Vec::new(alloc);
    let mut next = first;
    for row in counts {
        next = push_row(alloc, row.list(), next, most, &mut rows)?;
    }
    Ok(Bases {
        bases: Seq::new(rows),
        count: next - first,
    })
}
