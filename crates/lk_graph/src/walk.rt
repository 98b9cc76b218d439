//! Walks along arrows.
ghost use Rattle.std.specs.Prelude.{◌≡◌, ◌<◌, All, IfOk, OnOk, length};
ghost use Rattle.lk_graph.specs.Graph.{AreAllBelow};
ghost use Rattle.lk_graph.specs.Order.{AreMarked, IsWalk, turn_number};

use crate::graph::Graph;
use lk_base::NoMemory;
use std::alloc::Global;

/// What a walk does next.
#[derive(Clone, Copy)]
pub(crate) enum Turn {
    /// It comes to a number.
    Enter(u32),
    /// It has been wherever arrows lead from a number, and leaves it.
    Leave(u32),
}

/// A walk along arrows, as far as it has come.
#[derive(Drop)]
pub(crate) struct Walk {
    /// For each number whether the walk has come to it.
    pub entered: Vec<bool>,
    /// For each number whether the walk has left it.
    pub left: Vec<bool>,
    /// Those that it has left, in the order in which it has.
    pub order: Vec<u32>,
    /// What is still to be done, the next turn last.
    pub pending: Vec<Turn>,
}

impl Graph {
    /// Each number, in the order in which a walk along the arrows leaves them that begins at these, the last
    /// of them first: behind those to which arrows lead from it, cycles apart. Those that the walk doesn't
    /// come to stand behind the others.
    pub fn ends_first(&self, alloc: Global, begins: &[u32]) -> Result<Vec<u32>, NoMemory>
        requires { All (λ a. a < length self.now) begins.now }
        ensures { IfOk result (λ order. AreAllBelow (length self.now) order.items) }
    {
        let mut walk = self.walk(alloc, begins)?;
        self.finish(&mut walk)?;
        let Walk { left, order, .. } = walk;
        with_others(self.size(), &left, order)
    }

    /// A walk that is to begin at these numbers.
    fn walk(&self, alloc: Global, begins: &[u32]) -> Result<Walk, NoMemory>
        requires { All (λ a. a < length self.now) begins.now }
        ensures { IfOk result (IsWalk (length self.now)) }
    {
        let mut pending = Vec::new(alloc);
        for begin in begins {
            pending.push(Turn::Enter(*begin))?;
        }
        Ok(Walk {
            entered: vec![in alloc; false; self.size() as usize]?,
            left: vec![in alloc; false; self.size() as usize]?,
            order: Vec::new(alloc),
            pending,
        })
    }

    /// Goes on until nothing is to be done.
    fn finish(&self, walk: &mut Walk) -> Result<(), NoMemory>
        requires { IsWalk (length self.now) walk.old }
        ensures { OnOk result (IsWalk (length self.now) walk.new) }
    {
        for _ in 0..u64::MAX {
            let Some(turn) = walk.pending.pop() else {
                return Ok(());
            };
            self.take(turn, walk)?;
        }
        Ok(())
    }

    /// Takes a turn.
    fn take(&self, turn: Turn, walk: &mut Walk) -> Result<(), NoMemory>
        requires turn { turn_number turn < length self.now }
        requires walk { IsWalk (length self.now) walk.old }
        ensures { OnOk result (IsWalk (length self.now) walk.new) }
    {
        match turn {
            Turn::Enter(a) => self.enter(a, walk),
            Turn::Leave(a) => leave(a, walk),
        }
    }

    /// Comes to a number: where that is the first time, what arrows lead to from there
    /// is next, and then it is left.
    fn enter(&self, a: u32, walk: &mut Walk) -> Result<(), NoMemory>
        requires number { a < length self.now }
        requires walk { IsWalk (length self.now) walk.old }
        ensures { OnOk result (IsWalk (length self.now) walk.new) }
    {
        if walk.entered[a as usize] {
            return Ok(());
        }
        walk.entered[a as usize] = true;
        walk.pending.push(Turn::Leave(a))?;
        for b in self.ends(a) {
            walk.pending.push(Turn::Enter(*b))?;
        }
        Ok(())
    }
}

/// Leaves a number.
fn leave(a: u32, walk: &mut Walk) -> Result<(), NoMemory>
    requires number { a < length walk.old.left.items }
    requires walk { IsWalk (length walk.old.left.items) walk.old }
    ensures { OnOk result (IsWalk (length walk.old.left.items) walk.new) }
{
    walk.order.push(a)?;
    walk.left[a as usize] = true;
    Ok(())
}

/// The numbers of the order, and behind them those that are not marked.
fn with_others(size: u32, marks: &[bool], order: Vec<u32>) -> Result<Vec<u32>, NoMemory>
    requires long { length marks.now ≡ size }
    requires marked { AreMarked marks.now order.items }
    ensures { IfOk result (λ all. AreAllBelow size all.items) }
{
    let mut all = order;
    for a in 0..size {
        if !marks[a as usize] {
            all.push(a)?;
        }
    }
    Ok(all)
}
