//! What is found of expressions and types, and what an expression stands as.
ghost use Rattle.std.specs.Prelude.{◌≡◌, option_map};
ghost use Rattle.lk_typed.specs.declared.role.Role.TheVariants.{Operand};

use crate::addresses::Address;
use lk_base::Spot;
use lk_check_expr::Look;
use lk_typed::{Constant, Role, Typed};
use lk_types::TypeId;

/// Where a node stands, and its number.
#[derive(Clone, Copy)]
pub struct At {
    /// The place of its first token.
    pub spot: Spot,
    /// Its number in the syntax tree.
    pub ordinal: u32,
}

/// What an expression stands as.
#[derive(Clone, Copy)]
pub struct Stands {
    /// What asks for its value.
    pub role: Role,
    /// Whether it stands in the size of an allocation.
    pub in_size: bool,
}

impl Stands {
    /// An operand, or a value that nothing converts.
    pub fn operand(in_size: bool) -> Stands
        ensures role { result.role ≡ Operand }
        ensures in_size { result.in_size ≡ in_size }
    {
        Stands {
            role: Role::Operand,
            in_size,
        }
    }
}

/// What is found of an expression.
#[derive(Clone, Copy)]
pub struct Found {
    /// What is known of it, where it has a type.
    pub typing: Option<Typed>,
    /// Where it is, as an address constant.
    pub address: Address,
    /// How it is written.
    pub look: Look,
}

impl Found {
    /// What it is as an integer constant expression, where it has a type.
    pub fn constant(&self) -> Option<Constant>
        ensures { result ≡ option_map (λ typed. typed.constant) self.now.typing }
    {
        match &self.typing {
            Some(typed) => Some(typed.constant),
            None => None,
        }
    }
}

/// What is found of a type name or a parameter.
#[derive(Clone, Copy)]
pub struct TypeFound {
    /// The type, where no fault holds that takes it away.
    pub ty: Option<TypeId>,
    /// Whether a `sizeof` stands in it.
    pub holds_sizeof: bool,
}
