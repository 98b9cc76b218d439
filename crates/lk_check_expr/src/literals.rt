//! Constants as expressions (C99 6.4.4).
ghost use Rattle.lk_types.specs.Table.{Table};
ghost use Rattle.lk_typed.specs.Words as spec;
ghost use Rattle.lk_typed.specs.Meaning.{IsReady};
ghost use Rattle.lk_typed.specs.Typings.{IsVerdict};

use lk_base::Kind;
use lk_typed::{Constant, Typed, Verdict};

/// An integer constant, of its kind (C99 6.4.4.1, 5).
pub fn number(kind: Kind, value: u64) -> Verdict
    ensures { (table : Table) → IsReady table → IsVerdict table result (spec.number_rule kind value) }
{
    Verdict::Typed(Typed::integer(kind, Constant::Known(i128::from(value))))
}

/// A character constant, which is an `int` (C99 6.4.4.4, 10).
pub fn character(value: i32) -> Verdict
    ensures { (table : Table) → IsReady table → IsVerdict table result (spec.char_rule value) }
{
    Verdict::Typed(Typed::integer(Kind::Int, Constant::Known(i128::from(value))))
}
