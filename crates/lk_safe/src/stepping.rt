//! Steps, and what the analysis knows of the mutexes that their threads own.
ghost use Rattle.lk_birth.specs.Starts.{IsSmall};
ghost use Rattle.lk_meaning.specs.Stepping.{Tells};
ghost use Rattle.lk_safe.specs.Soundness.{IsSteppedHeld};
ghost use Rattle.lk_sound.specs.Soundness.{IsSteppedSound};

use lk_cells::State;
use lk_facts::Points;
use lk_meaning::Stepped;
use std::alloc::Global;

/// A step of a thread: it performs the action of its point, where the word makes the free choices. Where it
/// moves, and its program was lowered and comes to the state, then by each flow that is closed under the
/// rules: the origin of the place of a cell that it touches is among those that flow to the label of the
/// access; and unless the point is the end of a wait, for each lock of each lock set of its point that stays
/// within the rules the thread owned a mutex that flows to it.
pub fn step(alloc: Global, points: &Points, state: State, thread: u32, word: u64) -> Stepped
    requires { IsSmall state }
    ensures told { Tells points.now state thread word result }
    ensures sound { IsSteppedSound points.now state result }
    ensures held { IsSteppedHeld points.now state result }
{
    lk_sound::step(alloc, points, state, thread, word)
}
