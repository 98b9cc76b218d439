//! Which points control may come back to.
ghost use Rattle.std.specs.Prelude.{◌≡◌, ◌<◌, ◌↔◌, ℕ, true, All, Contains, IfOk, OnOk, length};
ghost use Rattle.lk_facts.specs.Reach.{IsOnCycle};
ghost use Rattle.lk_graph.specs.Found.{Finds};
ghost use Rattle.lk_graph.specs.Graph.{AreAllBelow};
ghost use Rattle.lk_graph.specs.Search.{IsInCycle, IsOnRound, IsTurned};
ghost use Rattle.lk_sets.specs.Ids.{has_id};

use crate::found::Found;
use crate::graph::Graph;
use crate::order::in_order;
use crate::search::has_marked;
use crate::steps::Steps;
use lk_base::NoMemory;
use lk_facts::Points;
use lk_sets::IdSet;
use std::alloc::Global;

/// The points that can come again: successors lead from each back to it, by one or more.
pub fn cycles(alloc: Global, points: &Points) -> Result<IdSet, NoMemory>
    ensures { IfOk result (λ ids. (p : ℕ) → (has_id ids p ≡ true) ↔ IsOnCycle points.now p) }
{
    let order = in_order(alloc, points)?;
    let steps = Steps::All.graph(alloc, points)?;
    let back = steps.turned(alloc)?;
    let again = steps.on_cycles(alloc, &back, &order)?;
    let set = IdSet::from_list(alloc, again.list())?;
    Ok(set)
}

impl Graph {
    /// The numbers from which arrows lead back to them, by one or more. Each of the order is asked in turn
    /// for the cycles through it that no earlier one is on, so that an order in which arrows lead on,
    /// cycles apart, keeps them short.
    fn on_cycles(&self, alloc: Global, back: &Graph, order: &[u32]) -> Result<Found, NoMemory>
        requires back { IsTurned self.now back.now }
        requires order { AreAllBelow (length self.now) order.now }
        ensures { IfOk result (λ again. (a : ℕ) → Contains again.list a ↔ IsInCycle self.now a) }
    {
        let mut left = vec![in alloc; true; self.size() as usize]?;
        let mut again = Found::new(alloc, self.size())?;
        for a in order {
            self.put_rounds(alloc, back, *a, &left, &mut again)?;
            left[*a as usize] = false;
        }
        Ok(again)
    }

    /// Puts the numbers of the cycles through this one, and through marked numbers alone, behind the others.
    fn put_rounds(
        &self,
        alloc: Global,
        back: &Graph,
        a: u32,
        marks: &[bool],
        again: &mut Found,
    ) -> Result<(), NoMemory>
        requires back { IsTurned self.now back.now }
        requires number { a < length self.now }
        requires size { again.old.size ≡ length self.now }
        ensures { OnOk result (Finds (IsOnRound self.now back.now marks.now a) again.old again.new) }
    {
        if !has_marked(marks, back.ends(a)) {
            return Ok(());
        }
        let before = back.reached(alloc, a, marks)?;
        let round = self.reached(alloc, a, before.marks())?;
        put_each(round.list(), again)?;
        Ok(())
    }
}

/// Puts the numbers behind those that were found.
fn put_each(ids: &[u32], found: &mut Found) -> Result<(), NoMemory>
    requires { All (λ x. x < found.old.size) ids.now }
    ensures { OnOk result (Finds (Contains ids.now) found.old found.new) }
{
    for id in ids {
        found.put(*id)?;
    }
    Ok(())
}
