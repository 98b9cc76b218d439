//! Integer constant expressions.
ghost use Rattle.std.specs.Prelude.{◌≡◌};
ghost use Rattle.lk_typed.specs.Typing.{is_null_value};

/// What an expression is as an integer constant expression (C99 6.6, 6).
#[derive(Clone, Copy, PartialEq)]
pub enum Constant {
    /// It is none.
    NotConstant,
    /// It is one, and its arithmetic is undefined.
    Undefined,
    /// It is one with this value.
    Known(i128),
}

/// Whether it is a constant of value 0.
pub fn is_null_value(a: Constant) -> bool
    ensures { result ≡ is_null_value a }
{
    match a {
        Constant::NotConstant | Constant::Undefined => false,
        Constant::Known(value) => value == 0,
    }
}
