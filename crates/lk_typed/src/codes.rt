//! The code that is told where several hold at one node.
ghost use Rattle.std.specs.Prelude.{◌≡◌};
ghost use Rattle.lk_typed.specs.Typing.{if_so};
ghost use Rattle.lk_typed.specs.Codes as spec;
ghost use Rattle.lk_typed.specs.Typings.{told_by_row, told_unless};

use crate::typed::Typed;
use crate::verdict::Verdict;
use lk_base::Code;

/// Of two codes that may hold, the one of the lesser number.
pub fn lesser(a: Option<Code>, b: Option<Code>) -> Option<Code>
    ensures { result ≡ spec.lesser a b }
{
    match a {
        Some(first) => match b {
            Some(second) => {
                if second.number() < first.number() {
                    Some(second)
                } else {
                    Some(first)
                }
            }
            None => Some(first),
        },
        None => b,
    }
}

/// The code of an operand: `Code::MutexValue` for a mutex or condition variable, which are no values; else
/// `Code::Mismatch` where its type isn't taken.
pub fn operand_code(is_lock: bool, is_taken: bool) -> Option<Code>
    ensures { result ≡ spec.operand_code is_lock is_taken }
{
    if is_lock {
        Some(Code::MutexValue)
    } else if is_taken {
        None
    } else {
        Some(Code::Mismatch)
    }
}

/// The verdict of the codes so far and the row of a table, which has no result for
/// operands that it doesn't take.
pub fn by_row(code: Option<Code>, row: Option<Typed>) -> Verdict
    ensures { result ≡ told_by_row code row }
{
    match code {
        Some(code) => Verdict::Broken(code),
        None => match row {
            Some(typed) => Verdict::Typed(typed),
            None => Verdict::Broken(Code::Mismatch),
        },
    }
}

/// A code where something holds.
pub fn code_if(holds: bool, code: Code) -> Option<Code>
    ensures { result ≡ spec.least_code (if_so holds code) }
{
    if holds { Some(code) } else { None }
}

/// The typing, unless a code holds.
pub fn unless(code: Option<Code>, typed: Typed) -> Verdict
    ensures { result ≡ told_unless code typed }
{
    match code {
        Some(code) => Verdict::Broken(code),
        None => Verdict::Typed(typed),
    }
}
