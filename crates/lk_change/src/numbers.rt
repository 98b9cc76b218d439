//! What points compute: numbers, comparisons, conversions.
ghost use Rattle.std.specs.Prelude.{◌≡◌, IfOk, map};
ghost use Rattle.std.specs.Option.{option_copied, option_and_then};
ghost use Rattle.lk_cells.specs.Cells as cells;
ghost use Rattle.lk_cells.specs.Frames.{given_by};
ghost use Rattle.lk_cells.specs.Operands as of_operand;
ghost use Rattle.lk_cells.specs.Parts as parts;
ghost use Rattle.lk_change.specs.Going as of_going;
ghost use Rattle.lk_change.specs.Numbers as spec;

use crate::change::{Change, Effect};
use crate::going::{gives, goes};
use lk_arith::{Op, UnaryOp, convert};
use lk_base::{Kind, NoMemory};
use lk_cells::{
    Computed, Frame, State, Thread, binary, converted_to, form_of, id_in, int_kind, number_of_type,
    operand, unary_of,
};
use lk_facts::Points;
use lk_types::TypeId;
use lk_values::Value;

/// The value of what is computed.
fn value_of(computed: Computed) -> Option<Value>
    ensures { result ≡ spec.value_of computed }
{
    match computed {
        Some(Ok(value)) => Some(value),
        Some(Err(_)) | None => None,
    }
}

/// A constant of the type of this number.
pub(crate) fn constant(points: &Points, ty: TypeId, number: i128) -> Option<Value>
    ensures { result ≡
        option_and_then (λ form. cells.number_of_type form number) (parts.form_of points.now.types ty) }
{
    let form = form_of(points.types(), ty)?;
    number_of_type(form, number)
}

/// An integer by the word, converted to a type (C99 6.3.1.3).
pub(crate) fn by_word(points: &Points, word: u64, ty: Option<TypeId>) -> Option<Value>
    ensures { result ≡ spec.by_word points.now word ty }
{
    let form = form_of(points.types(), ty?)?;
    let kind = int_kind(form)?;
    Some(Value::Number(kind, convert(kind, i128::from(word))))
}

/// Whether two ids name one thread, or both name none (POSIX pthread_equal).
fn equal_ids(a: Option<Option<u32>>, b: Option<Option<u32>>) -> Option<Value>
    ensures { result ≡ spec.equal_ids a b }
{
    let same = match (a?, b?) {
        (Some(x), Some(y)) => x == y,
        (None, None) => true,
        (Some(_), None) | (None, Some(_)) => false,
    };
    Some(Value::Number(Kind::Int, i128::from(same)))
}

/// The same of the operands.
fn ids_equal(frame: &Frame, args: &[u32]) -> Option<Value>
    ensures { result ≡ spec.ids_equal (map (given_by frame.now) args.now) }
{
    match args {
        [a, b] => equal_ids(id_in(operand(frame, *a)), id_in(operand(frame, *b))),
        _ => None,
    }
}

/// Gives what a call gives that touches nothing: by the word, or whether two ids are equal.
pub(crate) fn computes(
    points: &Points,
    thread: &Thread,
    word: u64,
    args: &[u32],
    ty: TypeId,
    equal: bool,
) -> Option<Change>
    ensures { result ≡ spec.computes points.now thread.now word args.now ty equal }
{
    let point = thread.frame.point;
    if equal {
        gives(points, point, ids_equal(&thread.frame, args))
    } else {
        goes(
            points,
            point,
            0,
            by_word(points, word, Some(ty)),
            Effect::Nothing,
        )
    }
}

/// The value of a unary operator.
pub(crate) fn unary_value(op: UnaryOp, value: Option<&Value>) -> Option<Value>
    ensures { result ≡ spec.unary_value op (option_copied value.entry) }
{
    value_of(unary_of(op, value?))
}

/// The value of a binary operator.
fn binary_value(
    points: &Points,
    state: &State,
    op: Op,
    left: Option<&Value>,
    right: Option<&Value>,
) -> Result<Option<Value>, NoMemory>
    ensures { IfOk result (λ value. value ≡
        spec.binary_value points.now state.now op (option_copied left.entry) (option_copied right.entry)) }
{
    let (Some(x), Some(y)) = (left, right) else {
        return Ok(None);
    };
    let computed = binary(points.types(), state, op, x, y)?;
    Ok(value_of(computed))
}

/// Gives the value of a binary operator of two operands.
pub(crate) fn gives_binary(
    points: &Points,
    state: &State,
    thread: &Thread,
    op: Op,
    a: u32,
    b: u32,
) -> Result<Option<Change>, NoMemory>
    ensures { IfOk result (λ change. change ≡ spec.gives_binary points.now state.now thread.now op a b) }
{
    let value = binary_value(
        points,
        state,
        op,
        operand(&thread.frame, a),
        operand(&thread.frame, b),
    )?;
    Ok(gives(points, thread.frame.point, value))
}

/// The value of a conversion.
fn converted(
    points: &Points,
    state: &State,
    a: u32,
    ty: TypeId,
    value: Option<&Value>,
) -> Result<Option<Value>, NoMemory>
    ensures { IfOk result (λ converted. converted ≡
        spec.converted_value points.now state.now a ty (option_copied value.entry)) }
{
    let Some(found) = value else {
        return Ok(None);
    };
    let from = if a < points.count() {
        points.value_type(a)
    } else {
        None
    };
    let computed = converted_to(points.types(), state, from, ty, found)?;
    Ok(value_of(computed))
}

/// Gives the value of a conversion of an operand.
pub(crate) fn gives_converted(
    points: &Points,
    state: &State,
    thread: &Thread,
    a: u32,
    ty: TypeId,
) -> Result<Option<Change>, NoMemory>
    ensures { IfOk result (λ change. change ≡ of_going.gives points.now thread.now.frame.point
        (spec.converted_value points.now state.now a ty (of_operand.operand thread.now a))) }
{
    let value = converted(points, state, a, ty, operand(&thread.frame, a))?;
    Ok(gives(points, thread.frame.point, value))
}
