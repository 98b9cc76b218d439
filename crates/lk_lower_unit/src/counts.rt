//! How many steps the nodes of a source have.
ghost use Rattle.std.specs.Prelude.{◌≡◌, ◌<◌, ◌≤◌, ◌+◌, ℕ, IfOk, OnOk, get_or, length};
ghost use Rattle.lk_lower_unit.specs.StepCounts.{CountsSteps, Raises};

use crate::standing::StandingStep;
use lk_base::{NoMemory, Seq};
use std::alloc::Global;

/// Makes a list at least so long, with zeros at its end.
fn widen(counts: &mut Vec<u32>, len: usize) -> Result<(), NoMemory>
    ensures same { OnOk result ((o : ℕ) → get_or counts.new.items o 0 ≡ get_or counts.old.items o 0) }
    ensures long { OnOk result (len ≤ length counts.new.items) }
{
    if counts.len() < len {
        counts.resize(len, 0)?;
    }
    Ok(())
}

/// Raises what stands at a place in a list to a number, where it is less.
fn put(counts: &mut Vec<u32>, at: usize, number: u32)
    requires { at < length counts.old.items }
    ensures { Raises counts.old.items counts.new.items at number }
{
    if counts[at] < number {
        counts[at] = number;
    }
}

/// Raises what a node counts to one more than one of its steps, where it is less.
fn raise(counts: &mut Vec<u32>, node: u32, step: u32) -> Result<(), NoMemory>
    ensures { OnOk result (Raises counts.old.items counts.new.items node (step + 1)) }
{
    let number = step.checked_add(1).ok_or(NoMemory)?;
    let at = node as usize;
    widen(counts, at + 1)?;
    put(counts, at, number);
    Ok(())
}

/// Of each node one more than the last of its steps among these; 0 of a node without steps.
///
/// `Err` comes for want of memory.
pub fn counts_of(alloc: Global, steps: &[StandingStep]) -> Result<Seq<u32>, NoMemory>
    ensures { IfOk result (CountsSteps steps.now) }
{
    let mut counts = Vec::new(alloc);
    for one in steps {
        raise(&mut counts, one.step.node, one.step.step)?;
    }
    Ok(Seq::new(counts))
}
