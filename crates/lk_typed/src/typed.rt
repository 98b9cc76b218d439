//! What is known of an expression that has a type.
ghost use Rattle.lk_types.specs.Table.{Table};
ghost use Rattle.lk_typed.specs.Typing as spec;
ghost use Rattle.lk_typed.specs.Meaning.{meaning_of, IsKnownType, IsReady};
ghost use Rattle.lk_typed.specs.Typings.{IsTyping};

use crate::constant::{Constant, is_null_value};
use lk_base::Kind;
use lk_types::TypeId;

/// The type of an expression. A pointer that arises in an expression need not be in the table.
#[derive(Clone, Copy, PartialEq)]
pub enum ExprType {
    /// A type of the table.
    Listed(TypeId),
    /// A pointer to a type of the table.
    PointerTo(TypeId),
}

/// What is known of an expression that has a type.
#[derive(Clone, Copy, PartialEq)]
pub struct Typed {
    /// Its type.
    pub ty: ExprType,
    /// Whether it is a place: an lvalue (C99 6.3.2.1, 1).
    pub is_place: bool,
    /// What it is as an integer constant expression (C99 6.6, 6).
    pub constant: Constant,
    /// Whether it is a null pointer constant (C99 6.3.2.3, 3).
    pub is_null: bool,
}

impl Typed {
    /// A value of this type that is no constant.
    pub fn of_type(ty: ExprType) -> Typed
        ensures { (table : Table) → IsKnownType table ty →
            IsTyping table result (spec.value_of_type (meaning_of table ty)) }
    {
        Typed {
            ty,
            is_place: false,
            constant: Constant::NotConstant,
            is_null: false,
        }
    }

    /// A value of an integer kind, and what constant it is. One of value 0 is a null
    /// pointer constant (C99 6.3.2.3, 3).
    pub fn integer(kind: Kind, constant: Constant) -> Typed
        ensures { (table : Table) → IsReady table → IsTyping table result (spec.integer kind constant) }
    {
        Typed {
            ty: ExprType::Listed(TypeId::of_kind(kind)),
            is_place: false,
            constant,
            is_null: is_null_value(constant),
        }
    }
}
