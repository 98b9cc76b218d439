//! The accesses that points make.
ghost use Rattle.std.specs.Prelude.{◌≡◌, ◌<◌, ◌+◌, length, IfOk, OnOk};
ghost use Rattle.lk_items.specs.Accesses.{IsAccessOf, AreAccessesBelow};

use lk_base::NoMemory;
use lk_facts::{Facts, Held};
use lk_rise::{Correlation, accessed};
use lk_sets::IdSet;
use std::alloc::Global;

/// The own item of a point, where it is live and accesses something.
fn access(facts: &Facts<'_>, point: u32) -> Option<Correlation>
    requires { point < length facts.now.program.points }
    ensures { IsAccessOf facts.now point result }
{
    let points = facts.points();
    let subject = accessed(facts, point)?;
    Some(Correlation {
        function: points.function(point),
        child: false,
        subject: subject.0,
        access: point,
    })
}

/// Puts the own item of a point, where it has one, behind those of the points before it, with
/// the locks that are held there.
fn push_access(
    alloc: Global,
    facts: &Facts<'_>,
    held: &Held,
    point: u32,
    base: &mut Vec<(Correlation, IdSet)>,
) -> Result<(), NoMemory>
    requires held_points { length held.now.at ≡ length facts.now.program.points }
    requires held_labels { held.now.labels ≡ length facts.now.labels.entries }
    requires point { point < length facts.now.program.points }
    requires base { AreAccessesBelow facts.now held.now point base.old.items }
    ensures { OnOk result (AreAccessesBelow facts.now held.now (point + 1) base.new.items) }
{
    if let Some(item) = access(facts, point) {
        let locks = held.at(point).copy()?;
        base.push((item, locks))?;
    }
    Ok(())
}

/// The own items of all points, with the locks that are held there.
pub(crate) fn accesses(
    alloc: Global,
    facts: &Facts<'_>,
    held: &Held,
) -> Result<Vec<(Correlation, IdSet)>, NoMemory>
    requires held_points { length held.now.at ≡ length facts.now.program.points }
    requires held_labels { held.now.labels ≡ length facts.now.labels.entries }
    ensures { IfOk result (λ base.
        AreAccessesBelow facts.now held.now (length facts.now.program.points) base.items) }
{
    let mut base = Vec::new(alloc);
    for point in 0..facts.points().count() {
        push_access(alloc, facts, held, point, &mut base)?;
    }
    Ok(base)
}
