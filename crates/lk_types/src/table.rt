//! The table of types.
ghost use Rattle.std.specs.Prelude.{IsTrue, ℕ, ◌≡◌, ◌↔◌, ◌<◌, length, slice_get, Some, false};
ghost use Rattle.lk_types.specs.Table.{IsKnown, members_of, least_of};
ghost use Rattle.lk_types.specs.Walks.{holds_struct};
ghost use Rattle.lk_types.specs.Sizes.{size_at, is_over, HasLowerParts};
ghost use Rattle.lk_types.specs.Equal.{IsAlike};
ghost use Rattle.lk_types.specs.Order.{IsOrdered};
ghost use Rattle.lk_types.specs.Building.{IsTable, IsMadeOf, IsLeast, IsPart, ArePartsOf, HasSizedStructs};

use crate::c_type::CType;
use crate::facts::{StructEntry, TypeFacts};
use crate::forms::Forms;
use crate::member::StructMember;
use crate::size::TypeSize;
use crate::type_id::TypeId;
use lk_base::Seq;
use std::marker::Model;

mod building;

/// The types of a program by their numbers, with the members of its structs and the parts of `void`. Equal
/// types have equal numbers, and no type is over the bounds of a table: there is room for the pointer to each
/// type that a declarator makes.
///
/// A contract sees it as plain lists.
#[derive(Drop)]
pub struct TypeTable {
    types: Forms<TypeFacts>,
    classes: Forms<TypeId>,
    structs: Vec<StructEntry>,
    parts: Seq<TypeId>,
}

impl Model for TypeTable {
    ghost use Rattle.lk_types.specs.Table.{Table};
    ghost use Rattle.lk_types.specs.Kept.{table_of, AreKept};

    ghost Value = { Table };

    ghost view = { λ a. table_of a.types a.structs.items a.parts };

    ghost invariant = { λ a. AreKept a.types a.classes a.structs.items (table_of a.types a.structs.items a.parts) };
}

impl TypeTable {
    /// The number of types. Their numbers are those below it.
    pub fn count(&self) -> u32
        ensures value { result ≡ length self.now.types }
        ensures table { IsTable self.now }
    {
        self.types.len() as u32
    }

    /// The form of a type. What it is made of is in the table, and each part of it
    /// that is no Tag has fewer steps.
    pub fn get(&self, t: TypeId) -> &CType
        requires { IsKnown self.now t }
        ensures value { slice_get self.now.types t ≡ Some result.now }
        ensures made_of { IsMadeOf self.now t result.now }
        ensures lower { HasLowerParts self.now t result.now }
        ensures table { IsTable self.now }
    {
        self.types.at(t.index()).0
    }

    /// Does nothing when run, and brings into the caller's proof what holds in each table: each type is made
    /// of types that are there, is within the bounds of a table and stands there once, and what is kept as
    /// its least equal is the first type that is equal but for the sizes of arrays.
    pub fn is_table(&self)
        ensures { IsTable self.now }
    {
        let _ = &self.types;
    }

    /// Does nothing when run, and brings into the caller's proof that the members of each struct are parts of
    /// objects, and no struct is over the bounds of a table.
    pub fn structs_are_sized(&self)
        ensures { HasSizedStructs self.now }
    {
        let _ = &self.structs;
    }

    /// Does nothing when run, and brings into the caller's proof that the elements of each array were
    /// complete when it came.
    pub fn elements_are_ordered(&self)
        ensures { IsOrdered self.now }
    {
        let _ = &self.types;
    }

    /// The number of structs, complete or not.
    pub fn structs(&self) -> u32
        ensures { result ≡ length self.now.members }
    {
        self.structs.len() as u32
    }

    /// The members of a struct; none exactly where it is incomplete.
    pub fn members(&self, s: u32) -> &[StructMember]
        requires { s < length self.now.members }
        ensures { result.now ≡ members_of self.now s }
    {
        self.structs[s as usize].members.list()
    }

    /// The types T for which `void` has a Part(T).
    pub fn parts(&self) -> &[TypeId]
        ensures value { result.now ≡ self.now.parts }
        ensures of_table { ArePartsOf self.now result.now }
    {
        self.parts.list()
    }

    /// How large the walk of a type's nodes is.
    pub fn size(&self, t: TypeId) -> TypeSize
        requires { IsKnown self.now t }
        ensures value { result ≡ size_at self.now t }
        ensures small { is_over result ≡ false }
    {
        let (form, facts) = self.types.at(t.index());
        match form.struct_number() {
            Some(s) => self.structs[s as usize].size,
            None => facts.size,
        }
    }

    /// Whether a type is a struct, or an array that holds one by value.
    pub fn holds_struct(&self, t: TypeId) -> bool
        requires { IsKnown self.now t }
        ensures { result ≡ holds_struct self.now t }
    {
        self.types.at(t.index()).1.holds_struct
    }

    /// The type with the least number among those that are equal to this one but for the sizes of arrays. It
    /// stays the same while the table grows.
    pub fn least_alike(&self, t: TypeId) -> TypeId
        requires { IsKnown self.now t }
        ensures value { result ≡ least_of self.now t }
        ensures least { IsLeast self.now t result }
        ensures alike { (u : ℕ) → IsKnown self.now u →
            IsAlike self.now.types t u ↔ (result ≡ least_of self.now u) }
    {
        self.types.at(t.index()).1.least
    }

    /// Whether a type may be a Part of `void`: it is known, isn't `void`, and is the least of those that are
    /// equal to it but for the sizes of arrays.
    fn is_part(&self, t: TypeId) -> bool
        ensures { IsTrue result ↔ IsPart self.now t }
    {
        t.0 < self.count() && !matches!(self.get(t), CType::Void) && self.least_alike(t) == t
    }

    /// Whether these types may be the Parts of `void`: each is one that may, and none stands twice.
    pub fn are_parts(&self, parts: &[TypeId]) -> bool
        ensures { IsTrue result ↔ ArePartsOf self.now parts.now }
    {
        for place in 0..parts.len() {
            if !self.is_part(parts[place]) || parts[..place].contains(&parts[place]) {
                return false;
            }
        }
        true
    }

    /// The same table with another list of the types for which `void` has a Part. It takes no memory.
    pub fn with_parts(self, parts: Vec<TypeId>) -> TypeTable
        requires { ArePartsOf self parts.items }
        ensures { result ≡ record self { parts = parts.items } }
    {
        let TypeTable {
            types,
            classes,
            structs,
            parts: _,
        } = self;
        TypeTable {
            types,
            classes,
            structs,
            parts: Seq::new(parts),
        }
    }
}
