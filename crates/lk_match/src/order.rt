//! An order of arrows in which few rounds pass all rows on.
ghost use Rattle.std.specs.Prelude.{◌↔◌, Contains, IfOk};
ghost use Rattle.lk_sets.specs.declared.spread.Arrow.{Arrow};

use lk_base::NoMemory;
use lk_sets::Arrow;
use std::alloc::Global;
use std::mem;

/// The same arrows, where no cycle forbids it each behind those that lead to where it begins. Rows are then
/// passed on along a whole path in one round.
pub fn in_order(alloc: Global, size: u32, arrows: Vec<Arrow>) -> Result<Vec<Arrow>, NoMemory>
    ensures { IfOk result (λ ordered. (x : Arrow) → Contains ordered.items x ↔ Contains arrows.items x) }
{
    let mut ordered = arrows;
    ordered.sort_by_key(|arrow| arrow.into)?;
    let places = places(alloc, size, &ordered)?;
    ordered.sort_by_key(|arrow| places.get(arrow.from as usize).copied())?;
    Ok(ordered)
}

/// A step of a walk that goes back along arrows, in depth first.
#[derive(Clone, Copy)]
enum Step {
    /// It comes to a number.
    Reach(u32),
    /// It has been everywhere from where the number is reached.
    Finish(u32),
}

/// For each number below the size the place at which such a walk over all of them has finished with it. The
/// arrows stand in the order of where they end.
fn places(alloc: Global, size: u32, arrows: &[Arrow]) -> Result<Vec<u32>, NoMemory> {
    let mut places = vec![in alloc; 0; size as usize]?;
    let mut seen = vec![in alloc; false; size as usize]?;
    let mut finished = 0u32;
    let mut steps = Vec::new(alloc);
    for number in 0..size {
        steps.push(Step::Reach(number))?;
    }
    for _ in 0..arrows.len() + 2 * size as usize {
        match steps.pop() {
            None => break,
            Some(Step::Reach(number)) => reach(number, arrows, &mut seen, &mut steps)?,
            Some(Step::Finish(number)) => {
                finished = finished.saturating_add(1);
                if let Some(place) = places.get_mut(number as usize) {
                    *place = finished;
                }
            }
        }
    }
    Ok(places)
}

/// Notes the steps from a number on, where the walk comes to it for the first time.
fn reach(
    number: u32,
    arrows: &[Arrow],
    seen: &mut Vec<bool>,
    steps: &mut Vec<Step>,
) -> Result<(), NoMemory> {
    let Some(mark) = seen.get_mut(number as usize) else {
        return Ok(());
    };
    if mem::replace(mark, true) {
        return Ok(());
    }
    steps.push(Step::Finish(number))?;
    let first = arrows.partition_point(|arrow| arrow.into < number);
    let rest = &arrows[first..];
    for arrow in &rest[..rest.partition_point(|arrow| arrow.into <= number)] {
        steps.push(Step::Reach(arrow.from))?;
    }
    Ok(())
}
