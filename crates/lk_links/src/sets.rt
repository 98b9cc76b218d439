//! Sets of numbers.
ghost use Rattle.std.specs.Prelude.{◌≡◌};
ghost use Rattle.std.specs.List.{list_all};
ghost use Rattle.lk_sets.specs.Ids.{has_id};

use lk_sets::IdSet;

/// Whether the set has all the numbers.
pub fn has_all(set: &IdSet, ids: &[u32]) -> bool
    ensures { result ≡ list_all (λ x. has_id set.now x) ids.now }
{
    ids.iter().all(|id| set.has(*id))
}
