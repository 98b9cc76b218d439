//! How the order of a program's mutexes is found.
ghost use Rattle.std.specs.Prelude.{◌≡◌, ◌↔◌, ℕ, Bool, true, false, All, IfOk, IsTrue, OnOk, length, slice_index_or};
ghost use Rattle.lk_facts.specs.Basis.{Basis};
ghost use Rattle.lk_facts.specs.Facts.{basis_of};
ghost use Rattle.lk_facts.specs.Program.{IsLockPlace};
ghost use Rattle.lk_links.specs.Links.{AreLinks};
ghost use Rattle.lk_order.specs.Acts.{basis_in, linear_in, functions_in, labels_in};
ghost use Rattle.lk_order.specs.Finding.{AreTwoLocks, IsGivenBy, MayMeanInMain, Puts, ArePlacesOf, AreOrderRows};
ghost use Rattle.lk_order.specs.Pairing.{IsPairBelow};
ghost use Rattle.lk_order.specs.Ranking.{IsPairWithin, AreBefore, AreRanksBy};
ghost use Rattle.lk_order.specs.Table.{IsOrder};
ghost use Rattle.lk_rise.specs.Links.{AreLinksInto};
ghost use Rattle.lk_sets.specs.Ids.{has_id};
ghost use Rattle.lk_sets.specs.Rows.{has};

use crate::acts::Acts;
use crate::into::links_into;
use crate::order::{Order, Pair};
use crate::pairing::Paired;
use crate::ranks::{Ranking, before, pairs_of, with_themselves};
use crate::sets::row;
use indexmap::IndexSet;
use lk_base::NoMemory;
use lk_facts::Facts;
use lk_graph::in_order;
use lk_links::Links;
use lk_sets::{BitRows, IdSet};
use std::alloc::Global;

/// The order in which a program locks its mutexes: which may be locked while which other is owned, which
/// lie on cycles, and the ranks where none does. The set has the linear lock places.
pub fn lock_order(alloc: Global, facts: &Facts<'_>, linear: &IdSet) -> Result<Order, NoMemory>
    ensures { IfOk result (IsOrder (basis_of facts.now) (has_id linear.now)) }
{
    let links = Links::new(alloc, facts)?;
    let into = links_into(alloc, facts, &links)?;
    let acts = Acts {
        facts,
        points: facts.points(),
        labels: facts.labels(),
        links: &links,
        into: &into,
        linear,
    };
    let rows = acts.precedes(alloc)?;
    order_of(alloc, &rows)
}

/// The order of these pairs of places.
fn order_of(alloc: Global, rows: &BitRows) -> Result<Order, NoMemory>
    ensures { IfOk result (λ order. (basis : Basis) (linear : ℕ → Bool) →
        AreOrderRows basis linear rows.now → IsOrder basis linear order) }
{
    let pairs = pairs_of(alloc, rows)?;
    let before = before(alloc, rows.size(), &pairs)?;
    let cycles = with_themselves(alloc, &before)?;
    let cyclic = some_on(&cycles);
    let ranks = ranks_of(alloc, &pairs, &before, cyclic)?;
    Ok(Order::new(pairs, cycles, cyclic, ranks))
}

/// Whether one of them is true.
fn some_on(cycles: &[bool]) -> bool
    ensures { IsTrue result ↔ ((q : ℕ) × (slice_index_or cycles.now q false ≡ true)) }
{
    for on in cycles {
        if *on {
            return true;
        }
    }
    false
}

/// The ranks of places, where none comes before itself.
fn ranks_of(
    alloc: Global,
    pairs: &[Pair],
    before: &BitRows,
    cyclic: bool,
) -> Result<Vec<u32>, NoMemory>
    requires before { AreBefore pairs.now before.now.size before.now }
    requires acyclic { cyclic ≡ false → (q : ℕ) → has before.now q q ≡ false }
    requires within { All (IsPairWithin before.now.size) pairs.now }
    ensures { IfOk result (λ ranks. cyclic ≡ false → AreRanksBy pairs.now ranks.items) }
{
    if cyclic {
        return Ok(Vec::new(alloc));
    }
    let ranking = Ranking { pairs, before };
    ranking.ranks(alloc)
}

impl Acts<'_, '_> {
    /// Whether the label is that of a lock place.
    fn is_lock_place(&self, q: u32) -> bool
        ensures { IsTrue result ↔ IsLockPlace self.now.points.now q }
    {
        let first = self.points.locations();
        first <= q && q < first + self.points.locks()
    }

    /// Puts two places, where both are lock places.
    fn put_two(&self, q: u32, r: u32, rows: &mut BitRows)
        requires size { rows.old.size ≡ length self.now.points.now.places }
        ensures { Puts (AreTwoLocks (basis_in self.now) q r) rows.old rows.new }
    {
        if !self.is_lock_place(q) {
            return;
        }
        if !self.is_lock_place(r) {
            return;
        }
        rows.put(q, r);
    }

    /// Puts a place with each of the others, where both are lock places.
    fn put_with_each(&self, q: u32, places: &[u32], rows: &mut BitRows)
        requires size { rows.old.size ≡ length self.now.points.now.places }
        ensures { Puts (IsGivenBy (AreTwoLocks (basis_in self.now) q) places.now) rows.old rows.new }
    {
        for r in places {
            self.put_two(q, *r, rows);
        }
    }

    /// Puts each of the one places with each of the others, where both are lock places.
    fn put_each(&self, held: &[u32], wanted: &[u32], rows: &mut BitRows)
        requires size { rows.old.size ≡ length self.now.points.now.places }
        ensures { Puts (IsGivenBy (λ q. IsGivenBy (AreTwoLocks (basis_in self.now) q) wanted.now) held.now)
            rows.old rows.new }
    {
        for q in held {
            self.put_with_each(*q, wanted, rows);
        }
    }

    /// Puts the pairs of places that a pair of labels may mean, where it is one of `main`.
    fn put_places(&self, alloc: Global, pair: Paired, rows: &mut BitRows) -> Result<(), NoMemory>
        requires size { rows.old.size ≡ length self.now.points.now.places }
        requires pair { IsPairBelow (functions_in self.now) (labels_in self.now) pair }
        ensures { OnOk result (Puts (MayMeanInMain (basis_in self.now) pair) rows.old rows.new) }
    {
        if pair.function != self.points.main() {
            return Ok(());
        }
        let all = self.facts.origins().all();
        let held = row(alloc, all, pair.held)?;
        let wanted = row(alloc, all, pair.wanted)?;
        self.put_each(&held, &wanted, rows);
        Ok(())
    }

    /// The pairs of places of which one may be locked while the other is owned.
    fn precedes(&self, alloc: Global) -> Result<BitRows, NoMemory>
        requires linked { AreLinks (basis_in self.now) self.now.links.now }
        requires into { AreLinksInto (basis_in self.now) self.now.into.now }
        requires functions { length self.now.into.now ≡ length self.now.points.now.functions }
        ensures { IfOk result (AreOrderRows (basis_in self.now) (linear_in self.now)) }
    {
        let order = in_order(alloc, self.points)?;
        let dropped = self.dropped(alloc, &order)?;
        let wants = self.wants(alloc, &order)?;
        let acquired = self.acquired(alloc, &order, &dropped)?;
        let pairs = self.pairs(alloc, &acquired, &wants)?;
        self.places_of(alloc, &pairs)
    }

    /// The pairs of places that the pairs of `main` may mean.
    fn places_of(&self, alloc: Global, pairs: &IndexSet<Paired>) -> Result<BitRows, NoMemory>
        requires { All (IsPairBelow (functions_in self.now) (labels_in self.now))
            pairs.now.keys }
        ensures { IfOk result (ArePlacesOf (basis_in self.now) pairs.now.keys) }
    {
        let mut rows = BitRows::new(alloc, self.points.locations() + self.points.locks())?;
        for pair in pairs.as_slice() {
            self.put_places(alloc, *pair, &mut rows)?;
        }
        Ok(rows)
    }
}
