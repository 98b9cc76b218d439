//! A list of types.
ghost use Rattle.std.specs.Prelude.{◌≡◌, nat_eq, IfOk};
ghost use Rattle.std.specs.Cmp.Lexicographic.{pointwise, nat_list_eq_equiv};
ghost use Rattle.std.specs.Cmp.{partial_equiv_from_equiv};
ghost use Rattle.std.specs.Cmp.Rules.{hashing};
ghost use Rattle.std.specs.Hash as fed;
ghost use Rattle.std.proofs.Common.{rules};

use crate::type_id::TypeId;
use lk_base::NoMemory;
use std::hash::{Hash, Hasher};
use std::marker::Model;

/// A list of types that can be compared, as the types of a function's parameters.
#[derive(Drop)]
pub struct TypeIds {
    types: Vec<TypeId>,
}

impl Model for TypeIds {
    ghost use Rattle.std.specs.Prelude.{ℕ, List};

    ghost Value = { List ℕ };

    ghost view = { λ ids. ids.types.items };
}

impl TypeIds {
    /// The types of the `Vec`. It takes no memory.
    pub fn new(types: Vec<TypeId>) -> TypeIds
        ensures { result ≡ types.items }
    {
        TypeIds { types }
    }

    /// The types, as a slice.
    pub fn list(&self) -> &[TypeId]
        ensures { result.now ≡ self.now }
    {
        self.types.as_slice()
    }

    /// An equal list.
    pub fn copy(&self) -> Result<TypeIds, NoMemory>
        ensures { IfOk result (λ ids. ids ≡ self.now) }
    {
        let types = self.types.clone()?;
        Ok(TypeIds { types })
    }
}

impl PartialEq for TypeIds {
    ghost eq = { pointwise nat_eq };

    ghost laws = { partial_equiv_from_equiv nat_list_eq_equiv };

    fn eq(&self, other: &TypeIds) -> bool {
        self.list() == other.list()
    }
}

impl Eq for TypeIds {
    ghost laws = { nat_list_eq_equiv };
}

impl Hash for TypeIds {
    ghost hash_input = { fed.slice fed.u32 };

    ghost respects_eq = { Prim.search (hashing, rules) };

    fn hash<H: Hasher>(&self, state: &mut H) {
        self.list().hash(state);
    }
}
