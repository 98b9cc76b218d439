//! The order of places: which lie on cycles, and the ranks of the others.
ghost use Rattle.std.specs.Prelude.{◌≡◌, ◌≤◌, ◌↔◌, ◌++◌, ℕ, true, false, map, All, Contains, IfOk, OnOk, slice_index_or};
ghost use Rattle.lk_held.specs.Progress.{Progress};
ghost use Rattle.lk_order.specs.Ranking.{IsPairWithin, AreBefore, AreOrdered, AreRising, AreRanksBy, HasRisen, Rises, to_rise};
ghost use Rattle.lk_order.specs.Table.{AreAscending, pair_of};
ghost use Rattle.lk_order.specs.declared.order.Pair.{Pair};
ghost use Rattle.lk_sets.specs.Rows.{has};

use crate::order::Pair;
use crate::sets::row;
use lk_base::NoMemory;
use lk_sets::{Arrow, BitRows};
use std::alloc::Global;

/// Puts the pairs of a place and some others behind the pairs.
fn push_pairs(held: u32, wanted: &[u32], pairs: &mut Vec<Pair>) -> Result<(), NoMemory>
    ensures { OnOk result (pairs.new.items ≡ pairs.old.items ++ map (pair_of held) wanted.now) }
{
    for place in wanted {
        pairs.push(Pair {
            held,
            wanted: *place,
        })?;
    }
    Ok(())
}

/// The pairs of a relation, in ascending order.
pub(crate) fn pairs_of(alloc: Global, rows: &BitRows) -> Result<Vec<Pair>, NoMemory>
    ensures ascending { IfOk result (λ pairs. AreAscending pairs.items) }
    ensures pairs { IfOk result (λ pairs. (q r : ℕ) →
        Contains pairs.items (pair_of q r) ↔ (has rows.now q r ≡ true)) }
    ensures in_range { IfOk result (λ pairs. All (IsPairWithin rows.now.size) pairs.items) }
{
    let mut pairs = Vec::new(alloc);
    for held in 0..rows.size() {
        let wanted = row(alloc, rows, held)?;
        push_pairs(held, &wanted, &mut pairs)?;
    }
    Ok(pairs)
}

/// For each place those from which pairs lead to it, by one or more.
pub(crate) fn before(alloc: Global, size: u32, pairs: &[Pair]) -> Result<BitRows, NoMemory>
    requires small { size ≤ 65536 }
    requires pairs { All (IsPairWithin size) pairs.now }
    ensures { IfOk result (AreBefore pairs.now size) }
{
    let mut rows = BitRows::new(alloc, size)?;
    let mut arrows = Vec::new(alloc);
    for pair in pairs {
        rows.put(pair.wanted, pair.held);
        arrows.push(Arrow {
            from: pair.held,
            into: pair.wanted,
        })?;
    }
    rows.spread(&arrows);
    Ok(rows)
}

/// For each place whether it stands with itself.
pub(crate) fn with_themselves(alloc: Global, rows: &BitRows) -> Result<Vec<bool>, NoMemory>
    ensures { IfOk result (λ cycles. (q : ℕ) → slice_index_or cycles.items q false ≡ has rows.now q q) }
{
    let mut cycles = Vec::new(alloc);
    for place in 0..rows.size() {
        cycles.push(rows.has(place, place))?;
    }
    Ok(cycles)
}

/// What ranks rise by: pairs of places, of which none comes before itself.
#[derive(Clone, Copy)]
pub(crate) struct Ranking<'a> {
    /// The pairs.
    pub pairs: &'a [Pair],
    /// For each place those before it.
    pub before: &'a BitRows,
}

impl Ranking<'_> {
    /// Lets the rank of what is wanted be above that of what is held, and answers whether it rose.
    fn raise(&self, pair: Pair, ranks: &mut Vec<u32>) -> bool
        requires ordered { AreOrdered self.now.pairs.now self.now.before.now }
        requires pair { Contains self.now.pairs.now pair }
        requires ranks { AreRising self.now.pairs.now self.now.before.now ranks.old.items }
        ensures { Progress (to_rise self.now.before.now.size) (Rises self.now.pairs.now self.now.before.now)
            (HasRisen pair) ranks.old.items ranks.new.items result }
    {
        let rank = ranks[pair.held as usize] + 1;
        if ranks[pair.wanted as usize] >= rank {
            return false;
        }
        ranks[pair.wanted as usize] = rank;
        true
    }

    /// Lets the rank of what each pair wants be above that of what it holds, and answers whether one rose.
    fn raise_each(&self, ranks: &mut Vec<u32>) -> bool
        requires ordered { AreOrdered self.now.pairs.now self.now.before.now }
        requires ranks { AreRising self.now.pairs.now self.now.before.now ranks.old.items }
        ensures { Progress (to_rise self.now.before.now.size) (Rises self.now.pairs.now self.now.before.now)
            (λ ranks. (pair : Pair) → Contains self.now.pairs.now pair → HasRisen pair ranks)
            ranks.old.items ranks.new.items result }
    {
        let mut changed = false;
        for pair in self.pairs {
            changed |= self.raise(*pair, ranks);
        }
        changed
    }

    /// For each place its rank, where none comes before itself.
    pub(crate) fn ranks(&self, alloc: Global) -> Result<Vec<u32>, NoMemory>
        requires before { AreBefore self.now.pairs.now self.now.before.now.size self.now.before.now }
        requires acyclic { (q : ℕ) → has self.now.before.now q q ≡ false }
        requires within { All (IsPairWithin self.now.before.now.size) self.now.pairs.now }
        ensures { IfOk result (λ ranks. AreRanksBy self.now.pairs.now ranks.items) }
    {
        let mut ranks = vec![in alloc; 0; self.before.size() as usize]?;
        while self.raise_each(&mut ranks) {}
        Ok(ranks)
    }
}
