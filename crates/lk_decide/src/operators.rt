//! Why what an operator or a conversion computes is undefined.
ghost use Rattle.std.specs.Prelude.{◌≡◌, IfOk};
ghost use Rattle.lk_decide.specs.Operators as spec;

use lk_arith::{Op, UnaryOp};
use lk_base::NoMemory;
use lk_cells::{Computed, State, Thread, binary, converted_to, operand, unary_of, used};
use lk_facts::Points;
use lk_types::TypeId;
use lk_values::{Why, either};

/// The cause of what is computed.
fn cause_of(computed: Computed) -> Option<Why>
    ensures { result ≡ spec.cause_of computed }
{
    match computed {
        Some(Err(cause)) => Some(cause),
        Some(Ok(_)) | None => None,
    }
}

/// A unary operator of an operand.
pub(crate) fn unary_row(thread: &Thread, op: UnaryOp, a: u32) -> Option<Why>
    ensures { result ≡ spec.unary_row thread.now op a }
{
    let value = operand(&thread.frame, a);
    match value {
        Some(found) => either(used(value), cause_of(unary_of(op, found))),
        None => used(value),
    }
}

/// A binary operator of two operands.
pub(crate) fn binary_row(
    points: &Points,
    state: &State,
    thread: &Thread,
    op: Op,
    a: u32,
    b: u32,
) -> Result<Option<Why>, NoMemory>
    ensures { IfOk result (λ cause. cause ≡ spec.binary_row points.now state.now thread.now op a b) }
{
    let left = operand(&thread.frame, a);
    let right = operand(&thread.frame, b);
    let missing = either(used(left), used(right));
    let (Some(x), Some(y)) = (left, right) else {
        return Ok(missing);
    };
    let computed = binary(points.types(), state, op, x, y)?;
    Ok(either(missing, cause_of(computed)))
}

/// A conversion of an operand.
pub(crate) fn convert_row(
    points: &Points,
    state: &State,
    thread: &Thread,
    a: u32,
    ty: TypeId,
) -> Result<Option<Why>, NoMemory>
    ensures { IfOk result (λ cause. cause ≡ spec.convert_row points.now state.now thread.now a ty) }
{
    let value = operand(&thread.frame, a);
    let Some(found) = value else {
        return Ok(used(value));
    };
    let from = if a < points.count() {
        points.value_type(a)
    } else {
        None
    };
    let computed = converted_to(points.types(), state, from, ty, found)?;
    Ok(either(used(value), cause_of(computed)))
}
