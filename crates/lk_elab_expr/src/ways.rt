//! How an expression stands.
ghost use Rattle.std.specs.Prelude.{◌≡◌};
ghost use Rattle.lk_typed.specs.declared.role.Role.TheVariants.{Operand};

use lk_typed::Role;

/// How an expression stands: as what, and whether in an address constant (C99 6.6, 9), where each integer
/// constant expression that a pointer moves by is a number.
#[derive(Clone, Copy)]
pub(crate) struct Way {
    pub(crate) role: Role,
    pub(crate) folded: bool,
}

impl Way {
    /// An operand, or a value that nothing converts directly.
    pub(crate) fn operand(folded: bool) -> Way
        ensures role { result.role ≡ Operand }
        ensures folded { result.folded ≡ folded }
    {
        Way {
            role: Role::Operand,
            folded,
        }
    }
}
