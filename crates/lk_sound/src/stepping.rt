//! Steps, and what the analysis knows of the cells that they touch.
ghost use Rattle.lk_birth.specs.Starts.{IsSmall};
ghost use Rattle.lk_meaning.specs.Stepping.{Tells};
ghost use Rattle.lk_sound.specs.Soundness.{IsSteppedSound};

use lk_cells::State;
use lk_facts::Points;
use lk_meaning::Stepped;
use std::alloc::Global;

/// A step of a thread: it performs the action of its point, where the word makes the free choices. Where it
/// moves and touches a cell, and its program was lowered and comes to the state, the origin of the cell's
/// place is among those that flow to the label of the access, by each flow that is closed under the rules.
pub fn step(alloc: Global, points: &Points, state: State, thread: u32, word: u64) -> Stepped
    requires { IsSmall state }
    ensures told { Tells points.now state thread word result }
    ensures sound { IsSteppedSound points.now state result }
{
    lk_meaning::step(alloc, points, state, thread, word)
}
