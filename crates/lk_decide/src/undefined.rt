//! Why the step of an action is undefined.
ghost use Rattle.std.specs.Prelude.{◌≡◌, IfOk};
ghost use Rattle.lk_decide.specs.Undefined as spec;

use crate::accesses::{free_row, index_row, place_row, read_row, scan_row, write_row};
use crate::frames::{all_end, call_row, return_row, slot_cause};
use crate::locks::{
    destroy_row, fill_row, init_row, lock_row, release_row, signal_row, unlock_row,
};
use crate::operators::{binary_row, convert_row, unary_row};
use crate::threads::{detach_row, join_row};
use lk_base::NoMemory;
use lk_cells::{State, Thread, all_used, followed, given, operand, used};
use lk_facts::{Action, Points};
use lk_values::Why;
use std::alloc::Global;

/// Why the step of an action is undefined, where it is: the first of the causes that hold (C99 3.4.3, J.2).
pub fn cause(
    points: &Points,
    state: &State,
    t: u32,
    thread: &Thread,
    action: &Action,
    alloc: Global,
) -> Result<Option<Why>, NoMemory>
    ensures { IfOk result (λ cause. cause ≡ spec.cause points.now state.now t thread.now action.now) }
{
    let frame = &thread.frame;
    let why = match action {
        Action::Value { .. }
        | Action::Null { .. }
        | Action::Func { .. }
        | Action::SelfId
        | Action::Root(_)
        | Action::Text(_)
        | Action::Skip
        | Action::Allocate { count: None, .. } => None,
        Action::Field { a, .. } => followed(state, operand(frame, *a)),
        Action::Index { a, b, into } => index_row(points, state, thread, *a, *b, *into)?,
        Action::Read { a, raw } => read_row(points, state, thread, *a, *raw)?,
        Action::Write { a, b, raw } => write_row(points, state, thread, *a, *b, *raw),
        Action::SlotRead(slot) => slot_cause(frame, *slot),
        Action::SlotWrite { a, .. } => given(operand(frame, *a)),
        Action::Unary { op, a } => unary_row(thread, *op, *a),
        Action::Binary { op, a, b } => binary_row(points, state, thread, *op, *a, *b)?,
        Action::Convert { a, ty } => convert_row(points, state, thread, *a, *ty)?,
        Action::Branch(a)
        | Action::Switch { a, .. }
        | Action::Create { a, .. }
        | Action::Allocate { count: Some(a), .. } => used(operand(frame, *a)),
        Action::Compute { args, .. } => all_used(frame, args.list()),
        Action::Call { args, .. } => all_used(frame, args.list()),
        Action::PointerCall { a, args } => call_row(thread, *a, args.list()),
        Action::Return(a) => return_row(state, thread, *a),
        Action::StoreId(a) => place_row(points, state, operand(frame, *a)),
        Action::Join(a) => join_row(state, t, operand(frame, *a)),
        Action::Detach(a) => detach_row(state, operand(frame, *a)),
        Action::ExitThread | Action::ExitProcess => all_end(state, thread),
        Action::Lock(a) | Action::Retake(a) => lock_row(points, state, operand(frame, *a)),
        Action::Unlock(a) => unlock_row(points, state, t, operand(frame, *a)),
        Action::Release { cond, mutex } => {
            release_row(
                points,
                state,
                t,
                operand(frame, *cond),
                operand(frame, *mutex),
            )
        }
        Action::Init(a) => init_row(points, state, operand(frame, *a)),
        Action::Destroy(a) => destroy_row(points, state, operand(frame, *a)),
        Action::Signal(a) => signal_row(points, state, operand(frame, *a)),
        Action::Free(a) => free_row(alloc, points, state, operand(frame, *a))?,
        Action::Scan(a) => scan_row(points, state, thread, *a)?,
        Action::Fill { a, .. } => fill_row(points, state, thread, *a)?,
    };
    Ok(why)
}
