//! What the points of static initialisers point to (C99 6.6, 9), read back from a point to the object.
ghost use Rattle.std.specs.Prelude.{◌≡◌, ◌↔◌, ◌<◌, ℕ, ℤ, IfSome, IsTrue, MatchOption, Some, length};
ghost use Rattle.lk_facts.specs.Initials.{GivesFunction, IsNumber};
ghost use Rattle.lk_facts.specs.declared.action.Action.TheVariants.{Binary, Index};
ghost use Rattle.lk_point_statics.specs.Asking.{IsAskedFor};
ghost use Rattle.lk_point_statics.specs.Backwards.{Leads, Meets, MeetsAlone, NoneLeads};
ghost use Rattle.lk_point_statics.specs.Near.{GivesNear};

use crate::wanted::Wanted;
use lk_arith::Op;
use lk_base::CellStep;
use lk_facts::{Action, Points};

/// The number that a point gives, where it gives one.
fn number_at(points: &Points, p: u32) -> Option<i128>
    requires { p < length points.now.points }
    ensures number { IfSome result (IsNumber points.now p) }
    ensures only { (n : ℤ) → IsNumber points.now p n → result ≡ Some n }
{
    if let Action::Value { number, .. } = points.action(p) {
        Some(*number)
    } else {
        None
    }
}

/// The pointer that an Index moves by what the point `b` gives, or to whose element of that index it leads.
fn before_index<'a>(points: &Points, wanted: &Wanted<'a>, b: u32, into: bool) -> Option<Wanted<'a>>
    requires { b < length points.now.points }
    ensures { MatchOption result ((a : ℕ) → NoneLeads points.now (Index a b into) wanted.now)
        (λ from. (a : ℕ) → Leads points.now (Index a b into) a from wanted.now) }
{
    let number = number_at(points, b)?;
    if into {
        wanted.before_element(number)
    } else {
        wanted.before_move(number, false)
    }
}

/// The pointer to which a Binary adds what the point `b` gives, or from which it subtracts that.
fn before_sum<'a>(points: &Points, wanted: &Wanted<'a>, op: Op, b: u32) -> Option<Wanted<'a>>
    requires { b < length points.now.points }
    ensures { MatchOption result ((a : ℕ) → NoneLeads points.now (Binary op a b) wanted.now)
        (λ from. (a : ℕ) → Leads points.now (Binary op a b) a from wanted.now) }
{
    let number = number_at(points, b)?;
    match op {
        Op::Add => wanted.before_move(number, false),
        Op::Subtract => wanted.before_move(number, true),
        Op::Multiply
        | Op::Divide
        | Op::Remainder
        | Op::ShiftLeft
        | Op::ShiftRight
        | Op::Less
        | Op::Greater
        | Op::LessOrEqual
        | Op::GreaterOrEqual
        | Op::Equal
        | Op::NotEqual
        | Op::And
        | Op::Xor
        | Op::Or => None,
    }
}

/// A point, and the pointer that it is asked to give.
#[derive(Clone, Copy)]
struct Asked<'a> {
    /// The point.
    point: u32,
    /// The pointer.
    wanted: Wanted<'a>,
}

impl<'a> Asked<'a> {
    /// Whether the point gives the pointer by itself: to the object of a root.
    fn is_met(&self, points: &Points) -> bool
        requires { self.now.point < length points.now.points }
        ensures { IsTrue result ↔ MeetsAlone points.now self.now.wanted self.now.point }
    {
        let action = points.action(self.point);
        if let Action::Root(root) = action {
            return self.wanted.is_object(*root);
        }
        if let Action::Text(root) = action {
            return self.wanted.is_object(*root);
        }
        false
    }

    /// What the operand of the point is asked to give, so that the point gives the pointer.
    fn operand(&self, points: &Points) -> Option<Asked<'a>>
        requires { self.now.point < length points.now.points }
        ensures { MatchOption result (Meets points.now self.now.wanted self.now.point
            → MeetsAlone points.now self.now.wanted self.now.point) (IsAskedFor points.now self.now) }
    {
        let action = points.action(self.point);
        if let Action::Convert { a, .. } = action {
            return Some(Asked { point: *a, ..*self });
        }
        if let Action::Field { a, member } = action {
            let wanted = self.wanted.before_member(*member)?;
            return Some(Asked { point: *a, wanted });
        }
        if let Action::Index { a, b, into } = action {
            let moved = before_index(points, &self.wanted, *b, *into)?;
            return Some(Asked {
                point: *a,
                wanted: moved,
            });
        }
        if let Action::Binary { op, a, b } = action {
            let summed = before_sum(points, &self.wanted, *op, *b)?;
            return Some(Asked {
                point: *a,
                wanted: summed,
            });
        }
        None
    }
}

/// Whether a point gives the pointer to a part of a root's object, or one past it.
pub(crate) fn gives_address(
    points: &Points,
    p: u32,
    root: u32,
    path: &[CellStep],
    past: bool,
) -> bool
    requires { p < length points.now.points }
    ensures { IsTrue result ↔ GivesNear points.now p root path.now past }
{
    let mut asked = Asked {
        point: p,
        wanted: Wanted::of(root, path, past),
    };
    for _turn in 0..points.count() {
        if asked.is_met(points) {
            return true;
        }
        match asked.operand(points) {
            Some(next) => asked = next,
            None => return false,
        }
    }
    false
}

/// Whether a point gives the pointer to a function.
pub(crate) fn gives_function(points: &Points, p: u32, f: u32) -> bool
    requires { p < length points.now.points }
    ensures { IsTrue result ↔ GivesFunction points.now p f }
{
    let mut point = p;
    for _turn in 0..points.count() {
        let action = points.action(point);
        if let Action::Func { function } = action {
            return *function == f;
        }
        let Action::Convert { a, .. } = action else {
            return false;
        };
        point = *a;
    }
    false
}
