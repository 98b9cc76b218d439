//! What the step of each action does.
ghost use Rattle.std.specs.Prelude.{◌≡◌, ◌<◌, ◌^◌, IfOk, length};
ghost use Rattle.lk_change.specs.Changes as spec;

use crate::accesses::{reads, scans_current, slot_given, slot_put, stores_id, writes};
use crate::births::{allocates_by, frees};
use crate::calls::{branched, enters, enters_through, returns_by, switched};
use crate::change::{Change, Effect};
use crate::fills::fills_current;
use crate::going::{changes, gives};
use crate::locks::{destroys, initialises, locks, releases_by, retakes, signals, unlocks};
use crate::numbers::{computes, constant, gives_binary, gives_converted, unary_value};
use crate::pointers::{gives_element, gives_member, gives_root};
use crate::threads::{begins_with, detaches, joins};
use lk_base::NoMemory;
use lk_cells::{State, Thread, operand};
use lk_facts::{Action, Points};
use lk_values::Value;
use std::alloc::Global;

/// What the step of an action does, where no cause makes it undefined and it doesn't wait. There is nothing
/// where an operand is none that the action takes, which lowered points never have.
pub fn change_of(
    alloc: Global,
    points: &Points,
    state: &State,
    t: u32,
    thread: &Thread,
    word: u64,
    action: &Action,
) -> Result<Option<Change>, NoMemory>
    requires { length state.now.objects < 2 ^ 32 }
    ensures { IfOk result (λ change. change ≡ spec.change points.now state.now t thread.now word action.now) }
{
    let frame = &thread.frame;
    let at = frame.point;
    match action {
        Action::Value { number, ty } => Ok(gives(points, at, constant(points, *ty, *number))),
        Action::Null { .. } => Ok(gives(points, at, Some(Value::Null))),
        Action::Func { function } => Ok(gives(points, at, Some(Value::Function(*function)))),
        Action::SelfId => Ok(gives(points, at, Some(Value::Thread(Some(t))))),
        Action::Root(r) | Action::Text(r) => Ok(gives_root(alloc, points, state, frame, *r)),
        Action::Field { a, member } => gives_member(points, state, thread, *a, *member),
        Action::Index { a, b, into } => gives_element(points, state, thread, *a, *b, *into),
        Action::Read { a, .. } => reads(points, state, thread, *a),
        Action::Write { a, b, .. } => writes(points, state, thread, *a, *b),
        Action::SlotRead(slot) => slot_given(points, frame, *slot),
        Action::SlotWrite { slot, a } => slot_put(points, at, *slot, operand(frame, *a)),
        Action::Unary { op, a } => Ok(gives(points, at, unary_value(*op, operand(frame, *a)))),
        Action::Binary { op, a, b } => gives_binary(points, state, thread, *op, *a, *b),
        Action::Compute { args, ty, equal } => {
            let args = args.list();
            Ok(computes(points, thread, word, args, *ty, *equal))
        }
        Action::Convert { a, ty } => gives_converted(points, state, thread, *a, *ty),
        Action::Branch(a) => Ok(branched(points, at, operand(frame, *a))),
        Action::Switch { a, cases } => Ok(switched(points, at, operand(frame, *a), cases.list())),
        Action::Skip => Ok(changes(points, at, Some(Effect::Nothing))),
        Action::Call { function, args } => enters(alloc, points, thread, *function, args.list()),
        Action::PointerCall { a, args } => enters_through(alloc, points, thread, *a, args.list()),
        Action::Return(a) => returns_by(points, t, thread, *a),
        Action::Create { function, a } => begins_with(alloc, points, thread, word, *function, *a),
        Action::StoreId(a) => stores_id(points, state, thread, *a),
        Action::Join(a) => Ok(joins(points, at, operand(frame, *a))),
        Action::Detach(a) => Ok(detaches(points, at, operand(frame, *a))),
        Action::ExitThread => Ok(Some(Change::EndThread)),
        Action::ExitProcess => Ok(Some(Change::EndProcess)),
        Action::Lock(a) => locks(points, state, t, thread, *a),
        Action::Unlock(a) => unlocks(points, state, thread, *a),
        Action::Release { cond, mutex } => releases_by(points, state, thread, *cond, *mutex),
        Action::Retake(a) => retakes(points, state, t, thread, *a),
        Action::Init(a) => initialises(points, state, thread, *a),
        Action::Destroy(a) => destroys(points, state, thread, *a),
        Action::Signal(a) => Ok(signals(points, state, at, operand(frame, *a))),
        Action::Allocate {
            count,
            zero,
            root,
            ..
        } => { allocates_by(alloc, points, state, thread, word, *root, *zero, *count) }
        Action::Free(a) => Ok(frees(points, at, operand(frame, *a))),
        Action::Scan(a) => scans_current(points, state, thread, word, *a),
        Action::Fill { a, named, .. } => fills_current(points, state, thread, named.list(), *a),
    }
}
