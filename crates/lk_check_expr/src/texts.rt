//! String literals as expressions (C99 6.4.5, 6.5.1).
ghost use Rattle.std.specs.Prelude.{◌≡◌, ◌<◌, ◌+◌, ◌^◌, ℕ, length, IfOk, OnErr};
ghost use Rattle.lk_types.specs.Building.{IsLonger};
ghost use Rattle.lk_typed.specs.Elements.{HasFewElements};
ghost use Rattle.lk_typed.specs.Meaning.{IsReady};
ghost use Rattle.lk_typed.specs.Typings.{IsVerdict};
ghost use Rattle.lk_typed.specs.Words.{text_rule};

use crate::fields::place;
use lk_base::NoMemory;
use lk_typed::Verdict;
use lk_types::{CType, TypeId, TypeTable};

/// How many elements the array of a text has: its bytes, and the zero at its end.
fn count_of(bytes: &[u8]) -> u64
    ensures value { result ≡ length bytes.now + 1 }
    ensures few { result < 2 ^ 64 }
{
    bytes.len() as u64 + 1
}

/// String literals one after another, by the bytes that they stand for together: a place of static storage,
/// an array of `char` with a zero at its end. The table gets its type.
pub fn text(types: &mut TypeTable, bytes: &[u8]) -> Result<Verdict, NoMemory>
    requires ready { IsReady types.old }
    requires few { HasFewElements types.old }
    requires room { length types.old.types < 4294967295 }
    ensures value { IfOk result (λ v. (n : ℕ) → IsVerdict types.new v (text_rule n bytes.now)) }
    ensures longer { IsLonger types.old types.new }
    ensures members { types.new.members ≡ types.old.members }
    ensures ready { IsReady types.new }
    ensures few { HasFewElements types.new }
    ensures err { OnErr result (types.new ≡ types.old) }
{
    types.is_table();
    let count = count_of(bytes);
    let form = CType::Array(TypeId::CHAR, count);
    let t = types.put(form)?;
    types.is_table();
    Ok(Verdict::Typed(place(t)))
}
