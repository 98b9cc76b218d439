//! The members of structs.
ghost use Rattle.std.specs.Prelude.{◌≡◌, IfOk};

use crate::type_id::TypeId;
use lk_base::{Name, NoMemory};

/// A member of a struct.
#[derive(Drop)]
pub struct StructMember {
    /// Its name.
    pub name: Name,
    /// Its type.
    pub ty: TypeId,
}

impl StructMember {
    /// An equal member.
    pub fn copy(&self) -> Result<StructMember, NoMemory>
        ensures { IfOk result (λ member. member ≡ self.now) }
    {
        let name = self.name.copy()?;
        Ok(StructMember { name, ty: self.ty })
    }
}
