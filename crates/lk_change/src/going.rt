//! Where a thread goes on, with what it gives and what it changes.
ghost use Rattle.std.specs.Prelude.{◌≡◌};
ghost use Rattle.lk_change.specs.Going as spec;

use crate::change::{Change, Effect, Going, Turn};
use lk_base::Kind;
use lk_facts::Points;
use lk_values::{Pointer, Value};

/// The successor of a point of this number.
pub(crate) fn successor(points: &Points, point: u32, number: usize) -> Option<u32>
    ensures { result ≡ spec.successor points.now point number }
{
    if point < points.count() {
        points.next(point).get(number).copied()
    } else {
        None
    }
}

/// Goes on to the successor of this number, where the point gives this and changes this.
pub(crate) fn goes(
    points: &Points,
    point: u32,
    number: usize,
    gives: Option<Value>,
    effect: Effect,
) -> Option<Change>
    ensures { result ≡ spec.goes points.now point number gives effect }
{
    match successor(points, point, number) {
        Some(next) => Some(Change::Goes(Going {
            gives,
            turn: Turn::To(next),
            effect,
        })),
        None => None,
    }
}

/// Gives a value and goes on, where there is one.
pub(crate) fn gives(points: &Points, point: u32, value: Option<Value>) -> Option<Change>
    ensures { result ≡ spec.gives points.now point value }
{
    match value {
        Some(value) => goes(points, point, 0, Some(value), Effect::Nothing),
        None => None,
    }
}

/// Changes something and goes on without a value, where there is something to change.
pub(crate) fn changes(points: &Points, point: u32, effect: Option<Effect>) -> Option<Change>
    ensures { result ≡ spec.changes points.now point effect }
{
    match effect {
        Some(effect) => goes(points, point, 0, None, effect),
        None => None,
    }
}

/// Changes something and goes on with the value 0, where there is something to change.
pub(crate) fn succeeds(points: &Points, point: u32, effect: Option<Effect>) -> Option<Change>
    ensures { result ≡ spec.succeeds points.now point effect }
{
    match effect {
        Some(effect) => goes(points, point, 0, Some(Value::Number(Kind::Int, 0)), effect),
        None => None,
    }
}

/// Changes something, and comes next to a cell.
pub(crate) fn stays_on(next: Pointer, effect: Effect) -> Option<Change>
    ensures { result ≡ spec.stays_on next effect }
{
    Some(Change::Goes(Going {
        gives: None,
        turn: Turn::OnAt(next),
        effect,
    }))
}
