//! The members of a struct so far (C99 6.7.2.1).
ghost use Rattle.std.specs.Prelude.{◌≡◌, ◌++◌, ◌∷◌, ◌||◌, [], true, false, is_some, OnOk};
ghost use Rattle.lk_types.specs.Table.{Table};
ghost use Rattle.lk_typed.specs.Told.{no_member};
ghost use Rattle.lk_found.specs.MembersOf.{AreMembers, HasFields};

use crate::found::Found;
use lk_base::{Name, NoMemory};
use lk_check_decl::Fields;
use lk_typed::Field;
use lk_types::{TypeId, TypeSize};
use std::alloc::Global;

/// The members of a struct so far.
#[derive(Drop)]
pub struct MembersFound {
    /// Its fields.
    pub fields: Fields,
    /// Whether no member is faulty.
    pub is_sound: bool,
    /// How large a struct with these fields is.
    pub size: TypeSize,
    /// Whether a `sizeof` stands in a member.
    pub holds_sizeof: bool,
}

impl MembersFound {
    /// No members.
    pub fn new(alloc: Global) -> MembersFound
        ensures fields { (table : Table) → HasFields table result }
        ensures members { (table : Table) → AreMembers table result no_member }
    {
        MembersFound {
            fields: Fields::new(alloc),
            is_sound: true,
            size: TypeSize::START,
            holds_sizeof: false,
        }
    }

    /// A `sizeof` stands in one more, or not.
    pub fn put_sizeof(&mut self, holds: bool)
        ensures { self.new ≡ record self.old { holds_sizeof = self.old.holds_sizeof || holds } }
    {
        self.holds_sizeof = self.holds_sizeof || holds;
    }

    /// A member is faulty.
    pub fn fail(&mut self)
        ensures { self.new ≡ record self.old { is_sound = false } }
    {
        self.is_sound = false;
    }

    /// A bit-field of which this width is found: it is no field. The answer says
    /// whether the width has a type.
    pub fn put_width(&mut self, width: Found) -> bool
        ensures typed { result ≡ is_some width.typing }
        ensures put { self.new ≡ record self.old {
          is_sound = false;
          holds_sizeof = self.old.holds_sizeof || width.look.holds_sizeof;
        } }
    {
        self.is_sound = false;
        self.holds_sizeof = self.holds_sizeof || width.look.holds_sizeof;
        width.typing.is_some()
    }

    /// One more field, with which a struct is so large.
    pub fn put_field(&mut self, name: &Name, t: TypeId, size: TypeSize) -> Result<(), NoMemory>
        ensures fields { OnOk result (self.new.fields ≡
            self.old.fields ++ record { name = name.now; ty = t } ∷ []) }
        ensures sound { OnOk result (self.new.is_sound ≡ self.old.is_sound) }
        ensures size { OnOk result (self.new.size ≡ size) }
        ensures holds_sizeof { OnOk result (self.new.holds_sizeof ≡ self.old.holds_sizeof) }
    {
        let name = name.copy()?;
        self.fields.push(Field { name, ty: t })?;
        self.size = size;
        Ok(())
    }
}
