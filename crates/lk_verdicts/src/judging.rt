//! What racing accesses say of each location.
ghost use Rattle.std.specs.Prelude.{◌≡◌, ◌<◌, ◌&&◌, IfOk};
ghost use Rattle.lk_verdicts.specs.Judging.{IsCommon, in_all, state_of};
ghost use Rattle.lk_facts.specs.Facts.{basis_of};
ghost use Rattle.lk_facts.specs.Verdicts.{AreRacing, AreVerdicts, IsVerdictOf};
ghost use Rattle.lk_rise.specs.Conflicts.{AreRacingLists};
ghost use Rattle.lk_rise.specs.Correlations.{has_of, locks_of};
ghost use Rattle.lk_sets.specs.Ids.{has_id, IsSetOf};

use lk_base::{NoMemory, Seq};
use lk_facts::{Facts, Racing, Verdict, VerdictState};
use lk_rise::Conflicts;
use lk_sets::IdSet;
use std::alloc::Global;

/// The verdict of each location, in their order, by the racing accesses of `main` and the linear lock places.
///
/// The lock set of a racing access has those of its lock places that are linear.
pub fn verdicts(
    alloc: Global,
    facts: &Facts<'_>,
    conflicts: &Conflicts,
    linear: &IdSet,
) -> Result<Vec<Verdict>, NoMemory>
    requires { AreRacingLists (basis_of facts.now) conflicts.now.entries conflicts.now.racing }
    ensures { IfOk result (λ v. AreVerdicts (basis_of facts.now) (has_of conflicts.now.entries)
        (locks_of conflicts.now.entries) (has_id linear.now) v.items) }
{
    let judging = Judging {
        facts,
        conflicts,
        linear,
    };
    let mut verdicts = Vec::new(alloc);
    for location in 0..facts.points().locations() {
        verdicts.push(judging.verdict(alloc, location)?)?;
    }
    Ok(verdicts)
}

/// The numbers of a set that are in the lock sets of all accesses too.
fn meet_all(alloc: Global, ids: &[u32], accesses: &[Racing]) -> Result<IdSet, NoMemory>
    ensures { IfOk result (IsSetOf (λ q. has_id ids.now q && in_all accesses.now q)) }
{
    let mut common = IdSet::from_list(alloc, ids)?;
    for access in accesses {
        common = common.meet(&access.locks)?;
    }
    Ok(common)
}

/// The numbers that are in the lock sets of all accesses, and none where there is no access.
fn common(alloc: Global, accesses: &[Racing]) -> Result<IdSet, NoMemory>
    ensures { IfOk result (IsCommon accesses.now) }
{
    match accesses.split_first() {
        Some((first, others)) => {
            let common = meet_all(alloc, first.locks.ids(), others)?;
            Ok(common)
        }
        None => Ok(IdSet::empty(alloc)),
    }
}

/// The state of a location with these racing accesses, where these locks are in all their lock sets.
fn state(accesses: &[Racing], common: &IdSet) -> VerdictState
    ensures { result ≡ state_of accesses.now common.now }
{
    if accesses.is_empty() {
        return VerdictState::Unshared;
    }
    if common.ids().is_empty() {
        return VerdictState::Suspect;
    }
    VerdictState::Guarded
}

/// What the verdicts of a program rest on.
#[derive(Drop)]
struct Judging<'a> {
    /// What is known of the program.
    facts: &'a Facts<'a>,
    /// The racing accesses of its locations.
    conflicts: &'a Conflicts,
    /// The linear lock places.
    linear: &'a IdSet,
}

impl Judging<'_> {
    /// The racing accesses of `main` for a location, each with its lock set.
    fn racing(&self, alloc: Global, location: u32) -> Result<Vec<Racing>, NoMemory>
        requires location { location < self.now.facts.now.program.locations }
        requires racing { AreRacingLists
            (basis_of self.now.facts.now) self.now.conflicts.now.entries self.now.conflicts.now.racing }
        ensures { IfOk result (λ v. AreRacing (basis_of self.now.facts.now)
            (has_of self.now.conflicts.now.entries) (locks_of self.now.conflicts.now.entries)
            (has_id self.now.linear.now) location v.items) }
    {
        let mut racing = Vec::new(alloc);
        for access in self.conflicts.racing(location) {
            let locks = access.locks.meet(self.linear)?;
            racing.push(Racing {
                access: access.access,
                locks,
            })?;
        }
        Ok(racing)
    }

    /// The verdict of a location.
    fn verdict(&self, alloc: Global, location: u32) -> Result<Verdict, NoMemory>
        requires location { location < self.now.facts.now.program.locations }
        requires racing { AreRacingLists
            (basis_of self.now.facts.now) self.now.conflicts.now.entries self.now.conflicts.now.racing }
        ensures { IfOk result (IsVerdictOf (basis_of self.now.facts.now)
            (has_of self.now.conflicts.now.entries) (locks_of self.now.conflicts.now.entries)
            (has_id self.now.linear.now) location) }
    {
        let accesses = self.racing(alloc, location)?;
        let locks = common(alloc, &accesses)?;
        let state = state(&accesses, &locks);
        Ok(Verdict {
            location,
            state,
            locks,
            accesses: Seq::new(accesses),
        })
    }
}
