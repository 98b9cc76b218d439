//! What a table keeps of its types.
ghost use Rattle.std.specs.Prelude.{◌≡◌, IfOk};

use crate::member::StructMember;
use crate::size::TypeSize;
use crate::type_id::TypeId;
use lk_base::{NoMemory, Seq};
use std::alloc::Global;

/// What a table keeps of a type.
#[derive(Clone, Copy)]
pub struct TypeFacts {
    /// How large its walk is; of a struct it stands with the members.
    pub size: TypeSize,
    /// Whether it is or holds by value a struct.
    pub holds_struct: bool,
    /// The least type that is equal to it but for the sizes of arrays.
    pub least: TypeId,
}

/// What a table keeps of a struct.
#[derive(Drop)]
pub struct StructEntry {
    /// Its members; none where it is incomplete.
    pub members: Seq<StructMember>,
    /// How large its walk is.
    pub size: TypeSize,
}

impl StructEntry {
    /// An equal entry.
    pub fn copy(&self, alloc: Global) -> Result<StructEntry, NoMemory>
        ensures { IfOk result (λ entry. entry ≡ self.now) }
    {
        let mut members = Vec::new(alloc);
        for member in self.members.list() {
            members.push(member.copy()?)?;
        }
        Ok(StructEntry {
            members: Seq::new(members),
            size: self.size,
        })
    }
}
