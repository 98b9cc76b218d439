//! What the rules say of names as expressions (C99 6.5.1).
ghost use Rattle.std.specs.Prelude.{◌≡◌, List, ℕ, Option, [], IfSome, option_map, if◌then◌else◌};
ghost use Rattle.lk_typed.specs.Env.{Env};
ghost use Rattle.lk_typed.specs.Meaning.{IsReady};
ghost use Rattle.lk_typed.specs.Names.{IsKnownName, declared_in};
ghost use Rattle.lk_typed.specs.Words.{told_name, use_of_declared};
ghost use Rattle.lk_check_expr.specs.NameUses.{IsUse};
ghost use Rattle.lk_found.specs.Judging.{IsRuled};

use crate::addresses::named;
use crate::ruled::Ruled;
use lk_base::{Code, Name};
use lk_check_expr::{NameUse, word};
use lk_typed::Declared;
use lk_types::TypeTable;

/// Whether a refusal at a name tells it.
pub fn is_told_with_name(code: Code) -> bool
    ensures { (word : List ℕ) → told_name code word ≡ (if result then word else []) }
{
    matches!(
        code,
        Code::Undeclared | Code::TryLock | Code::LongJmp | Code::Atomic | Code::UnknownExternal
    )
}

/// A name as an expression, by its innermost declaration.
pub fn word_ruled(types: &TypeTable, name: &Name, used: &NameUse, found: Option<&Declared>) -> Ruled
    requires ready { IsReady types.now }
    requires known { IfSome found (λ d. IsKnownName types.now d.now) }
    ensures { (env : Env) → IsUse types.now env name.now used.now → IsRuled types.now result
        (use_of_declared env name.now (option_map (λ d. declared_in types.now d.now) found.entry)) }
{
    let verdict = word(types, name, used, found);
    let address = named(found);
    Ruled { verdict, address }
}
