//! What a wait leads to.
ghost use Rattle.std.specs.Prelude.{◌≡◌, ◌↔◌, ◌<◌, ℕ, IsTrue, All, MatchOption, Some, length};
ghost use Rattle.lk_facts.specs.Program.{action_at};
ghost use Rattle.lk_facts.specs.declared.action.Action.TheVariants.{Release, Retake};
ghost use Rattle.lk_point_ways.specs.Kept as kept;

use lk_facts::{Action, Points};

/// The mutex that an action gives back while it waits.
fn released_mutex(action: &Action) -> Option<u32>
    ensures { MatchOption result ((cond mutex : ℕ) → action.now ≡ Release cond mutex → ⊥)
        (λ mutex. (cond : ℕ) × (action.now ≡ Release cond mutex)) }
{
    match action {
        Action::Release { mutex, .. } => Some(*mutex),
        Action::Value { .. }
        | Action::Null { .. }
        | Action::Func { .. }
        | Action::SelfId
        | Action::Root(_)
        | Action::Text(_)
        | Action::Field { .. }
        | Action::Index { .. }
        | Action::Read { .. }
        | Action::Write { .. }
        | Action::SlotRead(_)
        | Action::SlotWrite { .. }
        | Action::Unary { .. }
        | Action::Binary { .. }
        | Action::Compute { .. }
        | Action::Convert { .. }
        | Action::Branch(_)
        | Action::Switch { .. }
        | Action::Skip
        | Action::Call { .. }
        | Action::PointerCall { .. }
        | Action::Return(_)
        | Action::Create { .. }
        | Action::StoreId(_)
        | Action::Join(_)
        | Action::Detach(_)
        | Action::ExitThread
        | Action::ExitProcess
        | Action::Lock(_)
        | Action::Unlock(_)
        | Action::Retake(_)
        | Action::Init(_)
        | Action::Destroy(_)
        | Action::Signal(_)
        | Action::Allocate { .. }
        | Action::Free(_)
        | Action::Scan(_)
        | Action::Fill { .. } => None,
    }
}

/// Whether an action takes this mutex again.
fn is_retake(action: &Action, mutex: u32) -> bool
    ensures { IsTrue result ↔ (action.now ≡ Retake mutex) }
{
    match action {
        Action::Retake(a) => *a == mutex,
        Action::Value { .. }
        | Action::Null { .. }
        | Action::Func { .. }
        | Action::SelfId
        | Action::Root(_)
        | Action::Text(_)
        | Action::Field { .. }
        | Action::Index { .. }
        | Action::Read { .. }
        | Action::Write { .. }
        | Action::SlotRead(_)
        | Action::SlotWrite { .. }
        | Action::Unary { .. }
        | Action::Binary { .. }
        | Action::Compute { .. }
        | Action::Convert { .. }
        | Action::Branch(_)
        | Action::Switch { .. }
        | Action::Skip
        | Action::Call { .. }
        | Action::PointerCall { .. }
        | Action::Return(_)
        | Action::Create { .. }
        | Action::StoreId(_)
        | Action::Join(_)
        | Action::Detach(_)
        | Action::ExitThread
        | Action::ExitProcess
        | Action::Lock(_)
        | Action::Unlock(_)
        | Action::Release { .. }
        | Action::Init(_)
        | Action::Destroy(_)
        | Action::Signal(_)
        | Action::Allocate { .. }
        | Action::Free(_)
        | Action::Scan(_)
        | Action::Fill { .. } => false,
    }
}

/// Whether points take this mutex again.
fn all_retake(points: &Points, mutex: u32, list: &[u32]) -> bool
    requires { All (λ p. p < length points.now.points) list.now }
    ensures { IsTrue result ↔ All (λ p. action_at points.now p ≡ Some (Retake mutex)) list.now }
{
    for p in list {
        if !is_retake(points.action(*p), mutex) {
            return false;
        }
    }
    true
}

/// Whether a wait takes the mutex again that it gave back, before anything else (POSIX pthread_cond_wait).
pub(crate) fn retakes(points: &Points, p: u32) -> bool
    requires { p < length points.now.points }
    ensures { IsTrue result ↔ kept.Retakes points.now p }
{
    match released_mutex(points.action(p)) {
        Some(mutex) => all_retake(points, mutex, points.next(p)),
        None => true,
    }
}
