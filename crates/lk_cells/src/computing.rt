//! What operators give of values.
ghost use Rattle.std.specs.Prelude.{◌≡◌, IfOk};
ghost use Rattle.lk_cells.specs.Computing as spec;

use crate::moves::is_same_place;
use crate::places::{moved_by, object_at};
use crate::state::State;
use lk_arith::{Op, UnaryOp, Undefined, is_value, outcome, unary_outcome};
use lk_base::{Kind, NoMemory};
use lk_types::TypeTable;
use lk_values::{Pointer, Value, Why};

/// What computing comes to, where the operands are ones that it takes: a value, or the cause
/// by which C calls it undefined.
pub type Computed = Option<Result<Value, Why>>;

/// The cause by which C calls an operation on integers undefined.
fn why_of(cause: Undefined) -> Why
    ensures { result ≡ spec.why_of cause }
{
    match cause {
        Undefined::Overflow => Why::Overflow,
        Undefined::DivideByZero => Why::DivideByZero,
        Undefined::Shift => Why::Shift,
    }
}

/// An integer result at a kind.
fn of_kind(kind: Kind, number: Result<i128, Undefined>) -> Computed
    ensures { result ≡ spec.of_kind kind number }
{
    match number {
        Ok(number) => Some(Ok(Value::Number(kind, number))),
        Err(cause) => Some(Err(why_of(cause))),
    }
}

/// 1 for what holds, else 0, as an int (C99 6.5.8, 6; 6.5.9, 3).
fn tells(holds: bool) -> Computed
    ensures { result ≡ spec.tells holds }
{
    Some(Ok(Value::Number(Kind::Int, i128::from(holds))))
}

/// A pointer, or `Outside` where there is none.
fn points_to(pointer: Option<Pointer>) -> Computed
    ensures { result ≡ spec.points pointer }
{
    match pointer {
        Some(pointer) => Some(Ok(Value::Pointer(pointer))),
        None => Some(Err(Why::Outside)),
    }
}

/// An operator of two numbers (C99 6.5.5 to 6.5.12).
fn of_numbers(op: Op, kind: Kind, a: i128, b: i128) -> Computed
    ensures { result ≡ spec.of_numbers op kind a b }
{
    if is_value(kind, a) && (op.is_shift() || is_value(kind, b)) {
        of_kind(op.result_kind(kind), outcome(op, kind, a, b))
    } else {
        None
    }
}

/// An operator of two addresses, of which it is known whether they are equal, and by how many elements the
/// first stands after the second where they point into one array (C99 6.5.6, 9; 6.5.8, 5; 6.5.9, 6).
fn of_addresses(op: Op, same: bool, distance: Option<i128>) -> Computed
    ensures { result ≡ spec.of_addresses op same distance }
{
    match op {
        Op::Equal => return tells(same),
        Op::NotEqual => return tells(!same),
        Op::Multiply
        | Op::Divide
        | Op::Remainder
        | Op::Add
        | Op::ShiftLeft
        | Op::ShiftRight
        | Op::And
        | Op::Xor
        | Op::Or => return None,
        Op::Subtract | Op::Less | Op::Greater | Op::LessOrEqual | Op::GreaterOrEqual => {}
    }
    let Some(distance) = distance else {
        return Some(Err(Why::Outside));
    };
    match op {
        Op::Subtract => Some(Ok(Value::Number(Kind::Long, distance))),
        Op::Less => tells(distance < 0),
        Op::Greater => tells(0 < distance),
        Op::LessOrEqual => tells(distance <= 0),
        Op::GreaterOrEqual => tells(0 <= distance),
        Op::Equal
        | Op::NotEqual
        | Op::Multiply
        | Op::Divide
        | Op::Remainder
        | Op::Add
        | Op::ShiftLeft
        | Op::ShiftRight
        | Op::And
        | Op::Xor
        | Op::Or => None,
    }
}

/// By how many elements an operator with this number on its right moves a pointer (C99 6.5.6, 8).
fn amount_of(op: Op, kind: Kind, number: i128) -> Option<i128>
    ensures { result ≡ spec.amount_of op kind number }
{
    if !is_value(kind, number) {
        return None;
    }
    match op {
        Op::Add => Some(number),
        Op::Subtract => Some(-number),
        Op::Multiply
        | Op::Divide
        | Op::Remainder
        | Op::ShiftLeft
        | Op::ShiftRight
        | Op::Less
        | Op::Greater
        | Op::LessOrEqual
        | Op::GreaterOrEqual
        | Op::Equal
        | Op::NotEqual
        | Op::And
        | Op::Xor
        | Op::Or => None,
    }
}

/// Whether two pointers to parts of objects are equal (C99 6.5.9, 6).
fn is_equal(types: &TypeTable, state: &State, p: &Pointer, q: &Pointer) -> Result<bool, NoMemory>
    ensures { IfOk result (λ same. same ≡ spec.is_equal types.now state.now p.now q.now) }
{
    if p.part.object != q.part.object {
        return Ok(false);
    }
    match object_at(state, p.part.object) {
        Some(object) => {
            let same = is_same_place(types, object, p, q)?;
            Ok(same)
        }
        None => Ok(false),
    }
}

/// By how many elements p stands after q, where they point into one array (C99 6.5.6, 9).
fn distance(
    types: &TypeTable,
    state: &State,
    p: &Pointer,
    q: &Pointer,
) -> Result<Option<i128>, NoMemory>
    ensures { IfOk result (λ distance. distance ≡ spec.distance types.now state.now p.now q.now) }
{
    if p.is_same_array(q)? {
        Ok(Some(p.position() as i128 - q.position() as i128))
    } else {
        Ok(None)
    }
}

/// A binary operator with a number on its left.
fn with_number(op: Op, kind: Kind, a: i128, right: &Value) -> Computed
    ensures { result ≡ spec.with_number op kind a right.now }
{
    match right {
        Value::Number(_, b) => of_numbers(op, kind, a, *b),
        Value::Pointer(_)
        | Value::Function(_)
        | Value::Null
        | Value::Thread(_)
        | Value::Indeterminate => None,
    }
}

/// A binary operator with a pointer to a part on its left.
fn with_pointer(
    types: &TypeTable,
    state: &State,
    op: Op,
    p: &Pointer,
    right: &Value,
) -> Result<Computed, NoMemory>
    ensures { IfOk result (λ computed. computed ≡ spec.with_pointer types.now state.now op p.now right.now) }
{
    match right {
        Value::Number(kind, b) => {
            let Some(by) = amount_of(op, *kind, *b) else {
                return Ok(None);
            };
            let moved = moved_by(types, state, p, by)?;
            Ok(points_to(moved))
        }
        Value::Pointer(q) => {
            let same = is_equal(types, state, p, q)?;
            let distance = distance(types, state, p, q)?;
            Ok(of_addresses(op, same, distance))
        }
        Value::Function(_) | Value::Null => Ok(of_addresses(op, false, None)),
        Value::Thread(_) | Value::Indeterminate => Ok(None),
    }
}

/// A binary operator with a pointer to a function on its left.
fn with_function(op: Op, f: u32, right: &Value) -> Computed
    ensures { result ≡ spec.with_function op f right.now }
{
    match right {
        Value::Function(g) => of_addresses(op, f == *g, None),
        Value::Pointer(_) | Value::Null => of_addresses(op, false, None),
        Value::Number(_, _) | Value::Thread(_) | Value::Indeterminate => None,
    }
}

/// A binary operator with null on its left.
fn with_null(op: Op, right: &Value) -> Computed
    ensures { result ≡ spec.with_null op right.now }
{
    match right {
        Value::Number(kind, b) => match amount_of(op, *kind, *b) {
            Some(_) => Some(Err(Why::Outside)),
            None => None,
        },
        Value::Null => of_addresses(op, true, None),
        Value::Pointer(_) | Value::Function(_) => of_addresses(op, false, None),
        Value::Thread(_) | Value::Indeterminate => None,
    }
}

/// What a binary operator gives of two values.
pub fn binary(
    types: &TypeTable,
    state: &State,
    op: Op,
    left: &Value,
    right: &Value,
) -> Result<Computed, NoMemory>
    ensures { IfOk result (λ computed. computed ≡ spec.binary types.now state.now op left.now right.now) }
{
    match left {
        Value::Number(kind, a) => Ok(with_number(op, *kind, *a, right)),
        Value::Pointer(p) => {
            let computed = with_pointer(types, state, op, p, right)?;
            Ok(computed)
        }
        Value::Function(f) => Ok(with_function(op, *f, right)),
        Value::Null => Ok(with_null(op, right)),
        Value::Thread(_) | Value::Indeterminate => Ok(None),
    }
}

/// A unary operator of an address: `!` tells whether it is null (C99 6.5.3.3, 5).
fn of_address(op: UnaryOp, is_null: bool) -> Computed
    ensures { result ≡ spec.of_address op is_null }
{
    match op {
        UnaryOp::Not => tells(is_null),
        UnaryOp::Plus | UnaryOp::Negate | UnaryOp::Complement => None,
    }
}

/// What a unary operator gives of a value.
pub fn unary_of(op: UnaryOp, value: &Value) -> Computed
    ensures { result ≡ spec.unary_of op value.now }
{
    match value {
        Value::Number(kind, a) => {
            if is_value(*kind, *a) {
                of_kind(op.result_kind(*kind), unary_outcome(op, *kind, *a))
            } else {
                None
            }
        }
        Value::Pointer(_) | Value::Function(_) => of_address(op, false),
        Value::Null => of_address(op, true),
        Value::Thread(_) | Value::Indeterminate => None,
    }
}
