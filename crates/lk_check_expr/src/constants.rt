//! What the operators make of integer constant expressions (C99 6.6).
ghost use Rattle.std.specs.Prelude.{◌≡◌, IsTrue};
ghost use Rattle.lk_arith.specs.Operators.{is_shift};
ghost use Rattle.lk_typed.specs.Constants as spec;

use lk_arith::{Op, UnaryOp, Undefined, convert, outcome, unary_outcome};
use lk_base::Kind;
use lk_typed::Constant;

/// The second of two constants, where the first isn't asked any more.
fn beside(a: Constant, b: Constant) -> Constant
    ensures { result ≡ spec.beside a b }
{
    match a {
        Constant::NotConstant => Constant::NotConstant,
        Constant::Undefined | Constant::Known(_) => b,
    }
}

/// The constant of an outcome.
fn computed(outcome: Result<i128, Undefined>) -> Constant
    ensures { result ≡ spec.computed outcome }
{
    match outcome {
        Ok(value) => Constant::Known(value),
        Err(_) => Constant::Undefined,
    }
}

/// An operator at a kind, to which both operands are converted (C99 6.3.1.8).
pub(crate) fn binary_constant(op: Op, kind: Kind, a: Constant, b: Constant) -> Constant
    ensures { result ≡ spec.binary_constant op kind a b }
{
    match a {
        Constant::NotConstant => Constant::NotConstant,
        Constant::Undefined => beside(b, Constant::Undefined),
        Constant::Known(x) => match b {
            Constant::NotConstant => Constant::NotConstant,
            Constant::Undefined => Constant::Undefined,
            Constant::Known(y) => computed(outcome(op, kind, convert(kind, x), convert(kind, y))),
        },
    }
}

/// A shift at the kind of its first operand; the second keeps its value (C99 6.5.7, 3).
pub(crate) fn shift_constant(op: Op, kind: Kind, a: Constant, b: Constant) -> Constant
    requires { IsTrue (is_shift op) }
    ensures { result ≡ spec.shift_constant op kind a b }
{
    match a {
        Constant::NotConstant => Constant::NotConstant,
        Constant::Undefined => beside(b, Constant::Undefined),
        Constant::Known(x) => match b {
            Constant::NotConstant => Constant::NotConstant,
            Constant::Undefined => Constant::Undefined,
            Constant::Known(y) => computed(outcome(op, kind, convert(kind, x), y)),
        },
    }
}

/// A constant as a truth value.
fn truth_of(a: Constant) -> Constant
    ensures { result ≡ spec.truth_of a }
{
    match a {
        Constant::NotConstant => Constant::NotConstant,
        Constant::Undefined => Constant::Undefined,
        Constant::Known(value) => Constant::Known(i128::from(value != 0)),
    }
}

/// `&&` or `||`, with the truth value of the first operand that decides: then the second isn't
/// evaluated (C99 6.5.13, 4; 6.5.14, 4).
pub(crate) fn logical_constant(decides: bool, a: Constant, b: Constant) -> Constant
    ensures { result ≡ spec.logical_constant decides a b }
{
    match a {
        Constant::NotConstant => Constant::NotConstant,
        Constant::Undefined => beside(b, Constant::Undefined),
        Constant::Known(value) => {
            if decides == (value != 0) {
                beside(b, Constant::Known(i128::from(decides)))
            } else {
                truth_of(b)
            }
        }
    }
}

/// A unary operator at a kind, to which its operand is converted.
pub(crate) fn unary_constant(op: UnaryOp, kind: Kind, a: Constant) -> Constant
    ensures { result ≡ spec.unary_constant op kind a }
{
    match a {
        Constant::NotConstant => Constant::NotConstant,
        Constant::Undefined => Constant::Undefined,
        Constant::Known(x) => computed(unary_outcome(op, kind, convert(kind, x))),
    }
}

/// The arm of `?:` that is evaluated, beside the other one.
fn chosen(first: bool, a: Constant, b: Constant) -> Constant
    ensures { result ≡ spec.chosen first a b }
{
    if first { beside(b, a) } else { beside(a, b) }
}

/// `?:` at the kind of both arms, one of which is evaluated (C99 6.5.15, 4 and 5).
pub(crate) fn choice_constant(kind: Kind, c: Constant, a: Constant, b: Constant) -> Constant
    ensures { result ≡ spec.choice_constant kind c a b }
{
    match c {
        Constant::NotConstant => Constant::NotConstant,
        Constant::Undefined => beside(a, beside(b, Constant::Undefined)),
        Constant::Known(x) => match chosen(x != 0, a, b) {
            Constant::NotConstant => Constant::NotConstant,
            Constant::Undefined => Constant::Undefined,
            Constant::Known(y) => Constant::Known(convert(kind, y)),
        },
    }
}
