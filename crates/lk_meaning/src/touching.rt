//! What a thread is about to read or write.
ghost use Rattle.std.specs.Prelude.{◌≡◌, IfOk};
ghost use Rattle.std.specs.Option.{option_copied};
ghost use Rattle.lk_meaning.specs.Runs as spec;

use lk_base::NoMemory;
use lk_cells::{State, Thread, current, operand, part_of};
use lk_facts::{Action, Points};
use lk_values::{Cell, Value};

/// A cell that is about to be read or written.
#[derive(Drop)]
pub struct Touched {
    /// The cell.
    pub cell: Cell,
    /// Whether it is to be written.
    pub writes: bool,
}

/// The cell that a pointer leads to, which is to be read or written.
fn through(state: &State, value: Option<&Value>, writes: bool) -> Result<Option<Touched>, NoMemory>
    ensures { IfOk result (λ touched. touched ≡ spec.through state.now writes (option_copied value.entry)) }
{
    match part_of(state, value) {
        Some(part) => {
            let cell = part.copy()?;
            Ok(Some(Touched { cell, writes }))
        }
        None => Ok(None),
    }
}

/// The same from the cell on at which the point stands.
fn through_current(
    state: &State,
    thread: &Thread,
    a: u32,
    writes: bool,
) -> Result<Option<Touched>, NoMemory>
    ensures { IfOk result (λ touched. touched ≡ spec.through_current state.now thread.now a writes) }
{
    let value = current(thread, a)?;
    let touched = through(state, value.as_ref(), writes)?;
    Ok(touched)
}

/// The cell that an action reads or writes, and whether it writes it.
fn touched_by(state: &State, thread: &Thread, action: &Action) -> Result<Option<Touched>, NoMemory>
    ensures { IfOk result (λ touched. touched ≡ spec.touched_by state.now thread.now action.now) }
{
    let frame = &thread.frame;
    match action {
        Action::Read { a, .. } => {
            let touched = through(state, operand(frame, *a), false)?;
            Ok(touched)
        }
        Action::Write { a, .. } => {
            let touched = through(state, operand(frame, *a), true)?;
            Ok(touched)
        }
        Action::StoreId(a) => {
            let touched = through(state, operand(frame, *a), true)?;
            Ok(touched)
        }
        Action::Scan(a) => {
            let touched = through_current(state, thread, *a, false)?;
            Ok(touched)
        }
        Action::Fill { a, .. } => {
            let touched = through_current(state, thread, *a, true)?;
            Ok(touched)
        }
        Action::Value { .. }
        | Action::Null { .. }
        | Action::Func { .. }
        | Action::SelfId
        | Action::Root(_)
        | Action::Text(_)
        | Action::Field { .. }
        | Action::Index { .. }
        | Action::SlotRead(_)
        | Action::SlotWrite { .. }
        | Action::Unary { .. }
        | Action::Binary { .. }
        | Action::Compute { .. }
        | Action::Convert { .. }
        | Action::Branch(_)
        | Action::Switch { .. }
        | Action::Skip
        | Action::Call { .. }
        | Action::PointerCall { .. }
        | Action::Return(_)
        | Action::Create { .. }
        | Action::Join(_)
        | Action::Detach(_)
        | Action::ExitThread
        | Action::ExitProcess
        | Action::Lock(_)
        | Action::Unlock(_)
        | Action::Release { .. }
        | Action::Retake(_)
        | Action::Init(_)
        | Action::Destroy(_)
        | Action::Signal(_)
        | Action::Allocate { .. }
        | Action::Free(_) => Ok(None),
    }
}

/// The cell that a thread's point reads or writes next, and whether it writes it. There is none
/// where the thread isn't there, or it or the process has ended, or its point accesses nothing, or
/// the operand leads to no cell.
pub fn touch(points: &Points, state: &State, thread: u32) -> Result<Option<Touched>, NoMemory>
    ensures { IfOk result (λ touched. touched ≡ spec.touch points.now state.now thread) }
{
    let Some(found) = state.threads.get(thread as usize) else {
        return Ok(None);
    };
    if found.ended || state.ended || found.frame.point >= points.count() {
        return Ok(None);
    }
    let touched = touched_by(state, found, points.action(found.frame.point))?;
    Ok(touched)
}
