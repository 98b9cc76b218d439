//! Sets of labels that grow.
ghost use Rattle.std.specs.Prelude.{◌≡◌, ◌<◌, [], length, replicate, IfOk};
ghost use Rattle.lk_held.specs.Releasing.{Joins};
ghost use Rattle.lk_sets.specs.Rows.{row_of};

use lk_base::NoMemory;
use lk_links::has_all;
use lk_sets::{BitRows, IdSet};
use std::alloc::Global;

/// Adds the numbers to a set of the list, and answers whether one was new.
pub(crate) fn add(sets: &mut Vec<IdSet>, place: u32, more: &IdSet) -> Result<bool, NoMemory>
    requires { place < length sets.old.items }
    ensures { IfOk result (Joins sets.old.items sets.new.items place more.now) }
{
    let set = &sets[place as usize];
    if has_all(set, more.ids()) {
        return Ok(false);
    }
    let joined = set.union(more)?;
    sets[place as usize] = joined;
    Ok(true)
}

/// So many empty sets.
pub(crate) fn empty_sets(alloc: Global, count: u32) -> Result<Vec<IdSet>, NoMemory>
    ensures { IfOk result (λ sets. sets.items ≡ replicate count []) }
{
    let mut sets = Vec::new(alloc);
    for _ in 0..count {
        sets.push(IdSet::empty(alloc))?;
    }
    Ok(sets)
}

/// The numbers of row a.
pub(crate) fn row(alloc: Global, rows: &BitRows, a: u32) -> Result<Vec<u32>, NoMemory>
    requires { a < rows.now.size }
    ensures { IfOk result (λ ids. ids.items ≡ row_of rows.now a) }
{
    let mut ids = Vec::new(alloc);
    for m in rows.row(a) {
        ids.push(m)?;
    }
    Ok(ids)
}
