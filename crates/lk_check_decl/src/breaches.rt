//! The code of a single rule.
ghost use Rattle.std.specs.Prelude.{◌≡◌};
ghost use Rattle.lk_typed.specs.DeclaratorRules as spec;
ghost use Rattle.lk_check_decl.specs.Breaches.{told};

use lk_base::Code;

/// A code, unless what its rule asks for holds.
pub(crate) fn unless(holds: bool, code: Code) -> Option<Code>
    ensures { result ≡ told (spec.unless holds code) }
{
    if holds { None } else { Some(code) }
}
