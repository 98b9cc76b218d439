//! A table of types beside what its structs are in the program.
ghost use Rattle.std.specs.Prelude.{◌≡◌, ◌<◌, Some, length, slice_get};
ghost use Rattle.lk_link.specs.Comparing.{SideTable};
ghost use Rattle.lk_types.specs.Building.{IsMadeOf};
ghost use Rattle.lk_types.specs.Table.{IsKnown, HasKnown, members_of};

use crate::place::StructOf;
use lk_types::{CType, StructMember, TypeId, TypeTable};
use std::marker::Model;

/// A table of types, and what each of its structs is in the program.
#[derive(Drop)]
pub(crate) struct Side<'a> {
    types: &'a TypeTable,
    becomes: &'a [StructOf],
}

impl<'a> Model for Side<'a> {
    ghost use Rattle.std.specs.Prelude.{length, ◌≡◌};
    ghost use Rattle.lk_link.specs.Comparing.{SideTable};

    ghost Value = { SideTable };

    ghost view = { λ side. record { types = side.types.now; becomes = side.becomes.now } };

    ghost invariant = { λ side. length side.becomes.now ≡ length side.types.now.members };
}

impl<'a> Side<'a> {
    /// A table of types, and what each of its structs is.
    pub(crate) fn new(types: &'a TypeTable, becomes: &'a [StructOf]) -> Side<'a>
        requires { length becomes.now ≡ length types.now.members }
        ensures { result ≡ record { types = types.now; becomes = becomes.now } }
    {
        Side { types, becomes }
    }

    /// The form of a type.
    pub(crate) fn form(&self, t: TypeId) -> &CType
        requires { IsKnown self.now.types t }
        ensures value { slice_get self.now.types.types t ≡ Some result.now }
        ensures made_of { IsMadeOf self.now.types t result.now }
        ensures known { HasKnown self.now.types result.now }
    {
        self.types.get(t)
    }

    /// The members of a struct.
    pub(crate) fn members(&self, number: u32) -> &[StructMember]
        requires { number < length self.now.types.members }
        ensures { result.now ≡ members_of self.now.types number }
    {
        self.types.members(number)
    }

    /// What a struct is in the program.
    pub(crate) fn whole(&self, number: u32) -> StructOf
        requires { number < length self.now.types.members }
        ensures { slice_get self.now.becomes number ≡ Some result }
    {
        self.becomes[number as usize]
    }
}
