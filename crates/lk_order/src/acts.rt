//! What points do to mutexes, as the facts of a program say it.
ghost use Rattle.std.specs.Prelude.{◌≡◌, ◌<◌, length, IfSome};
ghost use Rattle.lk_order.specs.Mutexes.{locked, let_go};

use lk_base::Seq;
use lk_facts::{Action, Facts, Label, Labels, Points};
use lk_links::{Link, Links};
use lk_sets::IdSet;

/// The facts of a program, its points and labels among them, the links of its points, and its
/// linear lock places.
#[derive(Drop)]
pub(crate) struct Acts<'a, 'b> {
    /// The facts.
    pub facts: &'a Facts<'b>,
    /// The points.
    pub points: &'a Points,
    /// The labels.
    pub labels: &'a Labels,
    /// The links of the points.
    pub links: &'a Links,
    /// The links of the points, by the functions that they go into.
    pub into: &'a [Seq<Link>],
    /// The linear lock places.
    pub linear: &'a IdSet,
    ghost same_points: { points.now ≡ facts.now.program },
    ghost same_labels: { labels.now ≡ facts.now.labels },
}

/// The operand that points to the mutex that the action locks, or takes again once a wait is over.
fn locked(action: &Action) -> Option<u32>
    ensures { result ≡ locked action.now }
{
    match action {
        Action::Lock(a) | Action::Retake(a) => Some(*a),
        Action::Value { .. }
        | Action::Null { .. }
        | Action::Func { .. }
        | Action::SelfId
        | Action::Root(_)
        | Action::Text(_)
        | Action::Field { .. }
        | Action::Index { .. }
        | Action::Read { .. }
        | Action::Write { .. }
        | Action::SlotRead(_)
        | Action::SlotWrite { .. }
        | Action::Unary { .. }
        | Action::Binary { .. }
        | Action::Compute { .. }
        | Action::Convert { .. }
        | Action::Branch(_)
        | Action::Switch { .. }
        | Action::Skip
        | Action::Call { .. }
        | Action::PointerCall { .. }
        | Action::Return(_)
        | Action::Create { .. }
        | Action::StoreId(_)
        | Action::Join(_)
        | Action::Detach(_)
        | Action::ExitThread
        | Action::ExitProcess
        | Action::Unlock(_)
        | Action::Release { .. }
        | Action::Init(_)
        | Action::Destroy(_)
        | Action::Signal(_)
        | Action::Allocate { .. }
        | Action::Free(_)
        | Action::Scan(_)
        | Action::Fill { .. } => None,
    }
}

/// The operand that points to the mutex that the action unlocks, at the beginning of a wait too.
fn let_go(action: &Action) -> Option<u32>
    ensures { result ≡ let_go action.now }
{
    match action {
        Action::Unlock(a) => Some(*a),
        Action::Release { mutex, .. } => Some(*mutex),
        Action::Value { .. }
        | Action::Null { .. }
        | Action::Func { .. }
        | Action::SelfId
        | Action::Root(_)
        | Action::Text(_)
        | Action::Field { .. }
        | Action::Index { .. }
        | Action::Read { .. }
        | Action::Write { .. }
        | Action::SlotRead(_)
        | Action::SlotWrite { .. }
        | Action::Unary { .. }
        | Action::Binary { .. }
        | Action::Compute { .. }
        | Action::Convert { .. }
        | Action::Branch(_)
        | Action::Switch { .. }
        | Action::Skip
        | Action::Call { .. }
        | Action::PointerCall { .. }
        | Action::Return(_)
        | Action::Create { .. }
        | Action::StoreId(_)
        | Action::Join(_)
        | Action::Detach(_)
        | Action::ExitThread
        | Action::ExitProcess
        | Action::Lock(_)
        | Action::Retake(_)
        | Action::Init(_)
        | Action::Destroy(_)
        | Action::Signal(_)
        | Action::Allocate { .. }
        | Action::Free(_)
        | Action::Scan(_)
        | Action::Fill { .. } => None,
    }
}

impl Acts<'_, '_> {
    ghost use Rattle.lk_order.specs.Acts.{IsDoneTo, basis_in};

    /// The label of the mutex that a point locks, or takes again, where it is live and does so.
    pub(crate) fn locks(&self, point: u32) -> Option<Label>
        requires { point < length self.now.points.now.points }
        ensures value { IsDoneTo (basis_in self.now) locked point result }
        ensures in_range { IfSome result (λ x. x < length self.now.labels.now.entries) }
    {
        if !self.points.live(point) {
            return None;
        }
        match locked(self.points.action(point)) {
            Some(mutex) => self.labels.target(mutex),
            None => None,
        }
    }

    /// The label of the mutex that a point lets go, where it is live and does so.
    pub(crate) fn lets_go(&self, point: u32) -> Option<Label>
        requires { point < length self.now.points.now.points }
        ensures value { IsDoneTo (basis_in self.now) let_go point result }
        ensures in_range { IfSome result (λ x. x < length self.now.labels.now.entries) }
    {
        if !self.points.live(point) {
            return None;
        }
        match let_go(self.points.action(point)) {
            Some(mutex) => self.labels.target(mutex),
            None => None,
        }
    }
}
