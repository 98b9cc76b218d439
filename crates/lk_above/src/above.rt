//! Whose an item is above, and the locks that it has there.
ghost use Rattle.std.specs.Prelude.{◌≡◌, ◌<◌, ◌&&◌, ◌||◌, ℕ, not, length, IfOk};
ghost use Rattle.lk_facts.specs.LockSets.{keep_of};
ghost use Rattle.lk_facts.specs.Origins.{IsSetBelow};
ghost use Rattle.lk_sets.specs.Ids.{has_id};

use lk_base::NoMemory;
use lk_facts::Held;
use lk_links::Link;
use lk_sets::IdSet;

/// Whether the item above is a child's, a thread's that was started, where the one
/// below is a child's or is not.
pub fn is_child_above(link: Link, child: bool) -> bool
    ensures { result ≡ (child || link.starts) }
{
    child || link.starts
}

/// The locks of an item of a point, by those with which it rises: an item of the thread itself, which is no
/// child's, has those too that the point keeps while it runs the function.
///
/// `Err` comes for want of memory.
pub fn with_kept(held: &Held, point: u32, child: bool, risen: &IdSet) -> Result<IdSet, NoMemory>
    requires point { point < length held.now.at }
    requires risen { IsSetBelow held.now.labels risen.now }
    ensures members { IfOk result (λ set. (x : ℕ) →
        has_id set x ≡ (has_id risen.now x || (not child && has_id (keep_of held.now point) x))) }
    ensures in_range { IfOk result (IsSetBelow held.now.labels) }
{
    if child {
        let same = risen.copy()?;
        return Ok(same);
    }
    let all = risen.union(held.keep(point))?;
    Ok(all)
}
