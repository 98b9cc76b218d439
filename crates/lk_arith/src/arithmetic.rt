//! What the operators of C give at an integer kind.
ghost use Rattle.std.specs.Prelude.{◌≡◌, ◌*ℤ◌, int_div, int_rem, IsTrue, IsFalse, IfSome, IfOk};
ghost use Rattle.std.specs.Result.{result_ok};
ghost use Rattle.lk_arith.specs.Kinds as kinds;
ghost use Rattle.lk_arith.specs.Kinds.{IsValue};
ghost use Rattle.lk_arith.specs.Conversions.{is_zero};
ghost use Rattle.lk_arith.specs.Operators as spec;
ghost use Rattle.lk_arith.specs.Steps as steps;

use crate::conversions::{bits_of, convert, convert_product, power_of_two};
use crate::kinds::{is_signed, is_value, width};
use crate::operators::{Op, UnaryOp, Undefined};
use lk_base::Kind;

/// What an exact result comes to at a kind: a signed kind has it or overflows, any other one converts it.
#[tactic(auto, unfolding(crate::specs::Operators::result_at))]
fn result_at(kind: Kind, exact: i128) -> Result<i128, Undefined>
    ensures exact { result ≡ spec.result_at kind exact }
    ensures value { IfOk result (IsValue kind) }
{
    if !is_signed(kind) {
        return Ok(convert(kind, exact));
    }
    if is_value(kind, exact) {
        Ok(exact)
    } else {
        Err(Undefined::Overflow)
    }
}

/// The product of a value of a signed kind and a factor.
fn exact_product(kind: Kind, a: i128, b: i128) -> i128
    requires kind { IsTrue (kinds.is_signed kind) }
    requires first { IsValue kind a }
    requires second { IsTrue (steps.is_factor kind b) }
    ensures { result ≡ a *ℤ b }
{
    a * b
}

/// The quotient of a value and a divisor, rounded toward zero.
fn exact_quotient(kind: Kind, a: i128, b: i128) -> i128
    requires first { IsValue kind a }
    requires second { IsFalse (is_zero b) }
    ensures { result ≡ int_div a b }
{
    a / b
}

/// What a division of a value leaves.
fn exact_remainder(kind: Kind, a: i128, b: i128) -> i128
    requires first { IsValue kind a }
    requires second { IsFalse (is_zero b) }
    ensures { result ≡ int_rem a b }
{
    a % b
}

/// The product of two values, of which the second may also be a power of two by which a value is shifted.
#[tactic(auto, unfolding(crate::specs::Operators::result_at))]
fn product(kind: Kind, a: i128, b: i128) -> Result<i128, Undefined>
    requires first { IsValue kind a }
    requires second { IsTrue (steps.is_factor kind b) }
    ensures exact { result ≡ spec.result_at kind (a *ℤ b) }
    ensures value { IfOk result (IsValue kind) }
{
    if is_signed(kind) {
        return result_at(kind, exact_product(kind, a, b));
    }
    Ok(convert_product(kind, a.unsigned_abs(), b.unsigned_abs()))
}

/// The quotient of two values, rounded toward zero.
#[tactic(auto, unfolding(crate::specs::Operators::division))]
fn quotient(kind: Kind, a: i128, b: i128) -> Result<i128, Undefined>
    requires first { IsValue kind a }
    requires second { IsValue kind b }
    ensures exact { result ≡ spec.division kind a b (int_div a b) }
    ensures value { IfOk result (IsValue kind) }
{
    if b == 0 {
        return Err(Undefined::DivideByZero);
    }
    let quotient = exact_quotient(kind, a, b);
    if is_value(kind, quotient) {
        Ok(quotient)
    } else {
        Err(Undefined::Overflow)
    }
}

/// The remainder of two values, where they have a quotient.
#[tactic(auto, unfolding(crate::specs::Operators::division))]
fn remainder(kind: Kind, a: i128, b: i128) -> Result<i128, Undefined>
    requires first { IsValue kind a }
    requires second { IsValue kind b }
    ensures exact { result ≡ spec.division kind a b (int_rem a b) }
    ensures value { IfOk result (IsValue kind) }
{
    quotient(kind, a, b)?;
    Ok(exact_remainder(kind, a, b))
}

/// The number of places of a shift, where it is in range.
fn places(kind: Kind, count: i128) -> Result<u32, Undefined>
    ensures exact { result ≡ steps.places kind count }
{
    if 0 <= count && count < i128::from(width(kind)) {
        Ok(count as u32)
    } else {
        Err(Undefined::Shift)
    }
}

/// The left shift of a value by a number of places.
#[tactic(auto, unfolding(crate::specs::Operators::left_shift))]
fn left_shift(kind: Kind, a: i128, count: i128) -> Result<i128, Undefined>
    requires { IsValue kind a }
    ensures exact { result ≡ spec.left_shift kind a count }
    ensures value { IfOk result (IsValue kind) }
{
    let places = places(kind, count)?;
    if a < 0 {
        return Err(Undefined::Shift);
    }
    product(kind, a, power_of_two(places))
}

/// The right shift of a value by a number of places.
#[tactic(auto, unfolding(crate::specs::Operators::right_shift))]
fn right_shift(kind: Kind, a: i128, count: i128) -> Result<i128, Undefined>
    requires { IsValue kind a }
    ensures exact { result ≡ spec.right_shift kind a count }
    ensures value { IfOk result (IsValue kind) }
{
    let places = places(kind, count)?;
    Ok(a >> places)
}

/// What `a op b` comes to, where `a` is a value of the kind, and `b` one too or, in a shift, any number of
/// places: its value, or why C calls it undefined (C99 6.5.5 to 6.5.12).
///
/// A comparison gives 1 or 0. Other results that a signed kind doesn't have are `Overflow`;
/// any other kind converts them.
#[tactic(auto, unfolding(crate::specs::Operators::outcome, crate::specs::Operators::bit_by_bit))]
pub fn outcome(op: Op, kind: Kind, a: i128, b: i128) -> Result<i128, Undefined>
    requires first { IsValue kind a }
    requires second { IsTrue (spec.is_second op kind b) }
    ensures exact { result ≡ spec.outcome op kind a b }
    ensures value { IfOk result (IsValue (spec.result_kind op kind)) }
{
    match op {
        Op::Multiply => product(kind, a, b),
        Op::Divide => quotient(kind, a, b),
        Op::Remainder => remainder(kind, a, b),
        Op::Add => result_at(kind, a + b),
        Op::Subtract => result_at(kind, a - b),
        Op::ShiftLeft => left_shift(kind, a, b),
        Op::ShiftRight => right_shift(kind, a, b),
        Op::Less => Ok(i128::from(a < b)),
        Op::Greater => Ok(i128::from(a > b)),
        Op::LessOrEqual => Ok(i128::from(a <= b)),
        Op::GreaterOrEqual => Ok(i128::from(a >= b)),
        Op::Equal => Ok(i128::from(a == b)),
        Op::NotEqual => Ok(i128::from(a != b)),
        Op::And => Ok(convert(kind, i128::from(bits_of(kind, a) & bits_of(kind, b)))),
        Op::Xor => Ok(convert(kind, i128::from(bits_of(kind, a) ^ bits_of(kind, b)))),
        Op::Or => Ok(convert(kind, i128::from(bits_of(kind, a) | bits_of(kind, b)))),
    }
}

/// The value of `a op b`, where `a` is a value of the kind, and `b` one too or, in a shift, any number of
/// places: none exactly where C calls it undefined.
pub fn arith(op: Op, kind: Kind, a: i128, b: i128) -> Option<i128>
    requires first { IsValue kind a }
    requires second { IsTrue (spec.is_second op kind b) }
    ensures exact { result ≡ result_ok (spec.outcome op kind a b) }
    ensures value { IfSome result (IsValue (spec.result_kind op kind)) }
{
    outcome(op, kind, a, b).ok()
}

/// What `op a` comes to, where `a` is a value of the kind: its value, or `Overflow` where C
/// calls it undefined (C99 6.5.3.3).
#[tactic(auto, unfolding(crate::specs::Operators::unary_outcome))]
pub fn unary_outcome(op: UnaryOp, kind: Kind, a: i128) -> Result<i128, Undefined>
    requires { IsValue kind a }
    ensures exact { result ≡ spec.unary_outcome op kind a }
    ensures value { IfOk result (IsValue (spec.unary_kind op kind)) }
{
    match op {
        UnaryOp::Plus => Ok(a),
        UnaryOp::Negate => result_at(kind, -a),
        UnaryOp::Complement => result_at(kind, !a),
        UnaryOp::Not => Ok(i128::from(a == 0)),
    }
}

/// The value of `op a`, where `a` is a value of the kind: none exactly where C calls it undefined.
pub fn unary(op: UnaryOp, kind: Kind, a: i128) -> Option<i128>
    requires { IsValue kind a }
    ensures exact { result ≡ result_ok (spec.unary_outcome op kind a) }
    ensures value { IfSome result (IsValue (spec.unary_kind op kind)) }
{
    unary_outcome(op, kind, a).ok()
}
