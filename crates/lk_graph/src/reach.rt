//! Which points can be reached from which.
ghost use Rattle.std.specs.Prelude.{◌≡◌, ◌<◌, ◌≤◌, ◌↔◌, ◌||◌, ◌==◌, ◌&&◌, ℕ, true, List, All, IfOk, length};
ghost use Rattle.lk_facts.specs.Reach.{Plus, After};
ghost use Rattle.lk_graph.specs.Graph.{AreAllBelow, leads};
ghost use Rattle.lk_graph.specs.Search.{IsArrow, IsTurned};
ghost use Rattle.lk_graph.specs.Passing.{ArePassed, ArePassedOrMarked, AreReached, IsPassed, IsRowPassed};
ghost use Rattle.lk_sets.specs.Closing.{Going, Grows};
ghost use Rattle.lk_sets.specs.Ids.{has_id};
ghost use Rattle.lk_sets.specs.Marks.{AreMarked};
ghost use Rattle.lk_sets.specs.Rows.{has};

use crate::graph::Graph;
use crate::order::{all_functions, entries};
use crate::steps::Steps;
use lk_base::{MOST_POINTS, NoMemory};
use lk_facts::Points;
use lk_sets::BitRows;
use std::alloc::Global;

/// What can come after each point: row p has each point that live successors lead to from p, by one or more.
pub fn after(alloc: Global, points: &Points) -> Result<BitRows, NoMemory>
    ensures size { IfOk result (λ rows. rows.size ≡ length points.now.points) }
    ensures pairs { IfOk result (λ rows. (p q : ℕ) → (has rows p q ≡ true) ↔ After points.now p q) }
{
    prove!(points.count() <= MOST_POINTS);
    let steps = Steps::Live.graph(alloc, points)?;
    let functions = all_functions(alloc, points)?;
    let entries = entries(alloc, points, &functions)?;
    let order = steps.ends_first(alloc, &entries)?;
    let rows = steps.closed(alloc, &order)?;
    Ok(rows)
}

impl Graph {
    /// Row a has each number to which arrows lead from a, by one or more. An order in which arrows lead back,
    /// cycles apart, has each row passed on once.
    fn closed(&self, alloc: Global, order: &[u32]) -> Result<BitRows, NoMemory>
        requires small { length self.now ≤ 65536 }
        requires order { AreAllBelow (length self.now) order.now }
        ensures size { IfOk result (λ rows. rows.size ≡ length self.now) }
        ensures pairs { IfOk result (λ rows. (a b : ℕ) →
            (has rows a b ≡ true) ↔ Plus (IsArrow self.now) a b) }
    {
        let back = self.turned(alloc)?;
        self.passed(alloc, &back, order)
    }

    /// The same, by the arrows the other way round.
    fn passed(&self, alloc: Global, back: &Graph, order: &[u32]) -> Result<BitRows, NoMemory>
        requires small { length self.now ≤ 65536 }
        requires back { IsTurned self.now back.now }
        requires order { AreAllBelow (length self.now) order.now }
        ensures size { IfOk result (λ rows. rows.size ≡ length self.now) }
        ensures pairs { IfOk result (λ rows. (a b : ℕ) →
            (has rows a b ≡ true) ↔ Plus (IsArrow self.now) a b) }
    {
        let mut rows = self.rows(alloc)?;
        let mut marks = vec![in alloc; true; self.size() as usize]?;
        while back.pass_marked(order, &mut rows, &mut marks) {}
        Ok(rows)
    }

    /// Row a has each number to which an arrow leads from a.
    fn rows(&self, alloc: Global) -> Result<BitRows, NoMemory>
        requires { length self.now ≤ 65536 }
        ensures size { IfOk result (λ rows. rows.size ≡ length self.now) }
        ensures pairs { IfOk result (λ rows. (a b : ℕ) → has rows a b ≡ leads self.now a b) }
    {
        let mut rows = BitRows::new(alloc, self.size())?;
        for a in 0..self.size() {
            put_row(&mut rows, a, self.ends(a));
        }
        Ok(rows)
    }

    /// Lets the marked rows be passed on along the arrows, in this order, and answers whether a pair was new.
    /// Those rows are marked then that have grown since they were passed on.
    fn pass_marked(&self, order: &[u32], rows: &mut BitRows, marks: &mut Vec<bool>) -> bool
        requires order { AreAllBelow (length self.now) order.now }
        requires size { rows.old.size ≡ length self.now }
        requires long { length marks.old.items ≡ length self.now }
        requires waits { ArePassedOrMarked self.now marks.old.items rows.old }
        ensures going { Going (AreReached self.now) (ArePassed self.now) rows.old rows.new result }
        ensures long { length marks.new.items ≡ length self.now }
        ensures waits { ArePassedOrMarked self.now marks.new.items rows.new }
    {
        let mut changed = false;
        for a in order {
            changed |= self.pass_row(*a, rows, marks);
        }
        changed
    }

    /// Lets a row be passed on along its arrows where it is marked, and answers whether a pair was new.
    fn pass_row(&self, a: u32, rows: &mut BitRows, marks: &mut Vec<bool>) -> bool
        requires number { a < length self.now }
        requires size { rows.old.size ≡ length self.now }
        requires long { length marks.old.items ≡ length self.now }
        ensures { IsRowPassed self.now a rows.old rows.new marks.old.items marks.new.items result }
    {
        if !marks[a as usize] {
            return false;
        }
        let changed = pass_each(a, self.ends(a), rows, marks);
        marks[a as usize] = false;
        changed
    }
}

/// Lets each of the numbers stand with a too.
fn put_row(rows: &mut BitRows, a: u32, ids: &[u32])
    requires number { a < rows.old.size }
    requires ids { All (λ b. b < rows.old.size) ids.now }
    ensures size { rows.new.size ≡ rows.old.size }
    ensures pairs { (x y : ℕ) → has rows.new x y ≡ (has rows.old x y || x == a && has_id ids.now y) }
{
    for b in ids {
        rows.put(a, *b);
    }
}

/// Lets what stands with one number stand with each of the others too, marks those whose rows have grown,
/// and answers whether one has.
fn pass_each(from: u32, into: &[u32], rows: &mut BitRows, marks: &mut Vec<bool>) -> bool
    requires from { from < rows.old.size }
    requires into { All (λ a. a < rows.old.size) into.now }
    requires long { length marks.old.items ≡ rows.old.size }
    ensures grows { Grows rows.old rows.new result }
    ensures sound { (graph : List (List ℕ)) → All (IsArrow graph from) into.now
        → AreReached graph rows.old → AreReached graph rows.new }
    ensures marks { AreMarked rows.old rows.new marks.old.items marks.new.items result }
    ensures passed { All (IsPassed rows.new from) into.now }
    ensures same { (b : ℕ) → has rows.new from b ≡ has rows.old from b }
{
    let mut changed = false;
    for a in into {
        changed |= pass_one(from, *a, rows, marks);
    }
    changed
}

/// Lets what stands with one number stand with the other too, marks that one where its row has
/// grown, and answers whether it has.
fn pass_one(from: u32, into: u32, rows: &mut BitRows, marks: &mut Vec<bool>) -> bool
    requires from { from < rows.old.size }
    requires into { into < rows.old.size }
    requires long { length marks.old.items ≡ rows.old.size }
    ensures grows { Grows rows.old rows.new result }
    ensures sound { (graph : List (List ℕ)) → IsArrow graph from into
        → AreReached graph rows.old → AreReached graph rows.new }
    ensures marks { AreMarked rows.old rows.new marks.old.items marks.new.items result }
    ensures passed { IsPassed rows.new from into }
    ensures same { (b : ℕ) → has rows.new from b ≡ has rows.old from b }
{
    if !rows.join_row(from, into) {
        return false;
    }
    marks[into as usize] = true;
    true
}
