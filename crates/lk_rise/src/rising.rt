//! What rises from functions to those that run or start them.
ghost use Rattle.std.specs.Prelude.{◌≡◌, ◌<◌, ◌↔◌, length, All, IsTrue, IfOk};
ghost use Rattle.lk_facts.specs.Analysis.{held_table};
ghost use Rattle.lk_facts.specs.Facts.{basis_of};
ghost use Rattle.lk_facts.specs.Origins.{flow_of};
ghost use Rattle.lk_links.specs.Links.{AreLinks};
ghost use Rattle.lk_rise.specs.Correlations.{AreInRange, IsEntryInRange};
ghost use Rattle.lk_rise.specs.Rising.{Carries, subjects_below, AreRisen};

use crate::correlations::{Correlation, Correlations};
use crate::links::links_into;
use lk_base::NoMemory;
use lk_facts::{Facts, Held, Points};
use lk_links::Links;
use lk_sets::IdSet;
use std::alloc::Global;

/// What the subject of an item is to the function above.
#[derive(Clone, Copy, PartialEq, Eq)]
pub enum Subjects {
    /// The subject is a label, and above it is each label that this one may be outside.
    AsOutside,
    /// The subject is a location, which is the same above.
    AsTheyAre,
}

impl Subjects {
    /// The number that subjects are below: that of the labels, or that of the locations.
    fn below(self, facts: &Facts<'_>) -> u32
        ensures { result ≡ subjects_below facts.now self }
    {
        match self {
            Subjects::AsOutside => facts.labels().count(),
            Subjects::AsTheyAre => facts.points().locations(),
        }
    }
}

/// Whether the numbers are below another.
fn are_below(ids: &[u32], count: u32) -> bool
    ensures { IsTrue result ↔ All (λ x. x < count) ids.now }
{
    ids.iter().all(|id| *id < count)
}

/// Whether the numbers of an item are in range.
fn item_fits(item: Correlation, points: &Points, subjects: u32) -> bool
    ensures { IsTrue result
        ↔ ((item.function < length points.now.functions) × (item.subject < subjects)
        × (item.access < length points.now.points)) }
{
    item.function < points.functions() && item.subject < subjects && item.access < points.count()
}

/// Whether the numbers of an item and of its locks are in range.
fn entry_fits(entry: &(Correlation, IdSet), facts: &Facts<'_>, subjects: u32) -> bool
    ensures { IsTrue result ↔ IsEntryInRange facts.now subjects entry.now }
{
    item_fits(entry.0, facts.points(), subjects) && are_below(entry.1.ids(), facts.labels().count())
}

/// Whether the numbers of each item, and those of its locks, are in range, as `rise` asks.
pub fn fits(facts: &Facts<'_>, based: &[(Correlation, IdSet)], subjects: Subjects) -> bool
    ensures { IsTrue result ↔ AreInRange facts.now (subjects_below facts.now subjects) based.now }
{
    let below = subjects.below(facts);
    for entry in based {
        if !entry_fits(entry, facts, below) {
            return false;
        }
    }
    true
}

/// What items rise in.
#[derive(Drop)]
pub(crate) struct Rising<'a> {
    /// What is known of the program.
    pub facts: &'a Facts<'a>,
    /// The locks that are held at the points.
    pub held: &'a Held,
    /// The items that are given.
    pub base: &'a [(Correlation, IdSet)],
    /// What subjects are above.
    pub subjects: Subjects,
    ghost held_points: { length held.now.at ≡ length facts.now.program.points },
    ghost held_labels: { held.now.labels ≡ length facts.now.labels.entries },
}

/// The given items, and those that rise from them by calls and creations, with the
/// locks that are held at each.
///
/// An item that is given several times has only the locks that are in all of its sets. Lock sets and links
/// are those of the points, and the numbers in the given items are in range.
pub fn rise(
    alloc: Global,
    facts: &Facts<'_>,
    held: &Held,
    links: &Links,
    based: &[(Correlation, IdSet)],
    subjects: Subjects,
) -> Result<Correlations, NoMemory>
    requires held_points { length held.now.at ≡ length facts.now.program.points }
    requires held_labels { held.now.labels ≡ length facts.now.labels.entries }
    requires links { AreLinks (basis_of facts.now) links.now }
    requires based { AreInRange facts.now (subjects_below facts.now subjects) based.now }
    ensures risen { IfOk result (AreRisen (basis_of facts.now)
        (Carries (flow_of facts.now.origins) subjects) based.now (held_table held.now)) }
    ensures in_range { IfOk result (AreInRange facts.now (subjects_below facts.now subjects)) }
{
    let into = links_into(alloc, facts, links)?;
    let rising = Rising {
        facts,
        held,
        base: based,
        subjects,
    };
    let mut table = Correlations::new(alloc);
    rising.put_base(alloc, &mut table)?;
    let mut again = rising.pass_all(alloc, &into, &mut table)?;
    while !again.is_empty() {
        again = rising.pass_again(alloc, &into, &again, &mut table)?;
    }
    Ok(table)
}
