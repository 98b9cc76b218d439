//! How a table of types is built.
ghost use Rattle.std.specs.Prelude.{◌≡◌, ◌↔◌, IsTrue, ℕ, All, map, ◌<◌, ◌++◌, ◌∷◌, [], length, slice_get, true, false, Some, IfOk, OnOk, OnErr};
ghost use Rattle.lk_types.specs.Table.{IsKnown, is_complete, least_of};
ghost use Rattle.lk_types.specs.Walks.{holds, holds_struct};
ghost use Rattle.lk_types.specs.Kept.{key_form};
ghost use Rattle.lk_types.specs.Predeclared.{first_table};
ghost use Rattle.lk_types.specs.Sizes.{size_at, form_size, fields_size, with_part, with_types, is_over, is_too_large, Fits, FitsBy};
ghost use Rattle.lk_types.specs.Building.{IsForm, IsPassed, IsPartOfObjects, IsPut, IsAdded, types_of, IsLonger, CanComplete, with_members};

use super::TypeTable;
use crate::c_type::CType;
use crate::facts::{StructEntry, TypeFacts};
use crate::forms::Forms;
use crate::member::StructMember;
use crate::predeclared::predeclared;
use crate::size::TypeSize;
use crate::type_id::TypeId;
use crate::type_ids::TypeIds;
use lk_base::{NoMemory, Seq};
use std::alloc::Global;

impl TypeTable {
    /// A table of the predeclared types. It has no structs, and `void` has no parts.
    pub fn new(alloc: Global) -> Result<TypeTable, NoMemory>
        ensures { IfOk result (λ table. table ≡ first_table) }
    {
        let mut table = TypeTable {
            types: Forms::new(alloc),
            classes: Forms::new(alloc),
            structs: Vec::new(alloc),
            parts: Seq::new(Vec::new(alloc)),
        };
        let mut number = 0;
        while let Some(form) = predeclared(number) {
            table.add(form)?;
            number += 1;
        }
        table.is_table();
        Ok(table)
    }

    /// An equal table.
    pub fn copy(&self) -> Result<TypeTable, NoMemory>
        ensures { IfOk result (λ table. table ≡ self.now) }
    {
        let alloc = *self.structs.allocator();
        let mut parts = Vec::new(alloc);
        for part in self.parts.list() {
            parts.push(*part)?;
        }
        let mut structs = Vec::new(alloc);
        for entry in &self.structs {
            structs.push(entry.copy(alloc)?)?;
        }
        Ok(TypeTable {
            types: self.types.copy(alloc)?,
            classes: self.classes.copy(alloc)?,
            structs,
            parts: Seq::new(parts),
        })
    }

    /// The number of a new struct, which is incomplete.
    pub fn begin_struct(&mut self) -> Result<u32, NoMemory>
        requires { length self.old.members < 4294967295 }
        ensures number { IfOk result (λ s. s ≡ length self.old.members) }
        ensures ok { OnOk result (self.new ≡ record self.old { members = self.old.members ++ [] ∷ [] }) }
        ensures longer { IsLonger self.old self.new }
        ensures err { OnErr result (self.new ≡ self.old) }
    {
        let members = Seq::new(Vec::new(*self.structs.allocator()));
        self.structs.push(StructEntry {
            members,
            size: TypeSize::START,
        })?;
        Ok((self.structs.len() - 1) as u32)
    }

    /// Gives an incomplete struct its members. It takes no memory.
    ///
    /// The walk of the struct's own type changes, and no other.
    pub fn complete_struct(&mut self, s: u32, members: Seq<StructMember>)
        requires { CanComplete self.old s members }
        ensures value { self.new ≡ with_members self.old s members }
        ensures longer { IsLonger self.old self.new }
    {
        let size = self.members_size(members.list()).unwrap();
        self.structs[s as usize] = StructEntry { members, size };
    }

    /// The size of a struct with these members, or nothing exactly where it is over
    /// one of the bounds of a table.
    pub fn members_size(&self, members: &[StructMember]) -> Option<TypeSize>
        requires { All (IsKnown self.now) (types_of members.now) }
        ensures { Fits (fields_size self.now (types_of members.now)) result }
    {
        let mut size = TypeSize::START;
        for member in members {
            match size.larger(self.size(member.ty)) {
                Some(larger) => size = larger,
                None => return None,
            }
        }
        Some(size)
    }

    /// The size of a form that is about to be put, or nothing exactly where it is over
    /// one of the bounds of a table.
    pub fn form_size(&self, form: &CType) -> Option<TypeSize>
        requires { IsForm self.now form.now }
        ensures { Fits (form_size self.now form.now) result }
    {
        match form {
            CType::Pointer(t) => {
                let part = if self.has_tag(*t) {
                    TypeSize::START
                } else {
                    self.size(*t)
                };
                TypeSize::START.larger(part)
            }
            CType::Array(t, _) => TypeSize::START.larger(self.size(*t)),
            CType::Struct(s) => Some(self.structs[*s as usize].size),
            CType::Function { result, params, .. } => {
                match TypeSize::START.larger(self.size(*result)) {
                    Some(size) => self.with_fields(size, params.list()),
                    None => None,
                }
            }
            CType::Void
            | CType::Int(_)
            | CType::ThreadId
            | CType::Mutex
            | CType::Cond
            | CType::Opaque(_) => Some(TypeSize::START),
        }
    }

    /// Whether a form that is about to be put is over one of the bounds of the language.
    pub fn is_large_form(&self, form: &CType) -> bool
        requires { IsForm self.now form.now }
        ensures { result ≡ is_too_large (form_size self.now form.now) }
    {
        match self.form_size(form) {
            Some(size) => size.is_too_large(),
            None => true,
        }
    }

    /// A size with further fields of these types, or nothing exactly where it is over
    /// one of the bounds of a table.
    fn with_fields(&self, size: TypeSize, types: &[TypeId]) -> Option<TypeSize>
        requires known { All (IsKnown self.now) types.now }
        requires small { is_over size ≡ false }
        ensures { Fits (with_types self.now size types.now) result }
    {
        let mut larger = size;
        for t in types {
            match larger.larger(self.size(*t)) {
                Some(size) => larger = size,
                None => return None,
            }
        }
        Some(larger)
    }

    /// The size of a struct with one more member of this type, or nothing exactly where the struct is then
    /// over one of the bounds of the language. A struct without members has the size `TypeSize::START`.
    pub fn with_field(&self, size: TypeSize, t: TypeId) -> Option<TypeSize>
        requires known { IsKnown self.now t }
        requires small { is_too_large size ≡ false }
        ensures { FitsBy is_too_large (with_part size (size_at self.now t)) result }
    {
        match size.larger(self.size(t)) {
            Some(larger) => larger.bounded(),
            None => None,
        }
    }

    /// Whether a type can be a function's result or parameter: it is known and holds no struct by value.
    fn is_passed(&self, t: TypeId) -> bool
        ensures { IsTrue result ↔ IsPassed self.now t }
    {
        t.0 < self.count() && !self.holds_struct(t)
    }

    /// Whether each of these types can be a function's result or parameter.
    fn are_passed(&self, types: &[TypeId]) -> bool
        ensures { IsTrue result ↔ All (IsPassed self.now) types.now }
    {
        types.iter().all(|t| self.is_passed(*t))
    }

    /// Whether a type can be that of an element or member: it is known and complete.
    fn is_part_of_objects(&self, t: TypeId) -> bool
        ensures { IsTrue result ↔ IsPartOfObjects self.now t }
    {
        t.0 < self.count() && self.is_complete(t)
    }

    /// Whether a form may be put, where it isn't over the bounds of a table: what it is made of is in the
    /// table, elements are complete, and a function's result and parameters hold no struct by value.
    pub fn is_form(&self, form: &CType) -> bool
        ensures { IsTrue result ↔ IsForm self.now form.now }
    {
        match form {
            CType::Pointer(t) => t.0 < self.count(),
            CType::Array(t, _) => self.is_part_of_objects(*t),
            CType::Struct(s) => *s < self.structs(),
            CType::Function { result, params, .. } => {
                self.is_passed(*result) && self.are_passed(params.list())
            }
            CType::Void
            | CType::Int(_)
            | CType::ThreadId
            | CType::Mutex
            | CType::Cond
            | CType::Opaque(_) => true,
        }
    }

    /// Whether these are the types of members that a struct can have: known, and complete.
    pub fn are_members(&self, members: &[StructMember]) -> bool
        ensures { IsTrue result ↔ All (λ member. IsPartOfObjects self.now member.ty) members.now }
    {
        members
            .iter()
            .all(|member| self.is_part_of_objects(member.ty))
    }

    /// Whether the size of an object of a type is known.
    pub fn is_complete(&self, t: TypeId) -> bool
        requires { IsKnown self.now t }
        ensures { result ≡ is_complete self.now t }
    {
        match self.get(t) {
            CType::Int(_) | CType::ThreadId | CType::Mutex | CType::Cond | CType::Pointer(_) =>
                true,
            CType::Array(_, size) => *size != 0,
            CType::Struct(s) => !self.members(*s).is_empty(),
            CType::Void | CType::Function { .. } | CType::Opaque(_) => false,
        }
    }

    /// The type of a form: the one that is there, or a new one.
    ///
    /// Where no memory is found the table is as before.
    pub fn put(&mut self, form: CType) -> Result<TypeId, NoMemory>
        requires form { IsForm self.old form }
        requires small { is_over (form_size self.old form) ≡ false }
        requires room { length self.old.types < 4294967295 }
        ensures put { IfOk result (λ t. IsPut self.old self.new form t) }
        ensures known { IfOk result (λ t. slice_get self.new.types t ≡ Some form) }
        ensures longer { IsLonger self.old self.new }
        ensures err { OnErr result (self.new ≡ self.old) }
    {
        match self.types.find(&form) {
            Some(place) => Ok(TypeId(place as u32)),
            None => {
                let t = self.add(form)?;
                Ok(t)
            }
        }
    }

    /// Whether a form is a struct, or an array whose elements are or hold one.
    fn form_holds_struct(&self, form: &CType) -> bool
        requires { IsForm self.now form.now }
        ensures { result ≡ holds (holds_struct self.now) form.now }
    {
        match form {
            CType::Struct(_) => true,
            CType::Array(t, _) => self.holds_struct(*t),
            CType::Void
            | CType::Int(_)
            | CType::ThreadId
            | CType::Mutex
            | CType::Cond
            | CType::Pointer(_)
            | CType::Function { .. }
            | CType::Opaque(_) => false,
        }
    }

    /// The least alike of each of these types.
    fn least_of_all(&self, alloc: Global, types: &[TypeId]) -> Result<TypeIds, NoMemory>
        requires { All (IsKnown self.now) types.now }
        ensures { IfOk result (λ least. least ≡ map (least_of self.now) types.now) }
    {
        let mut least = Vec::new(alloc);
        for t in types {
            least.push(self.least_alike(*t))?;
        }
        Ok(TypeIds::new(least))
    }

    /// The form with the least alike of each type in its place, and without the size of an array.
    fn key(&self, form: &CType) -> Result<CType, NoMemory>
        requires { IsForm self.now form.now }
        ensures { IfOk result (λ key. key ≡ key_form (least_of self.now) form.now) }
    {
        match form {
            CType::Pointer(t) => Ok(CType::Pointer(self.least_alike(*t))),
            CType::Array(t, _) => Ok(CType::Array(self.least_alike(*t), 0)),
            CType::Function {
                result,
                params,
                dots,
            } => {
                Ok(CType::Function {
                    result: self.least_alike(*result),
                    params: self.least_of_all(*self.structs.allocator(), params.list())?,
                    dots: *dots,
                })
            }
            CType::Void
            | CType::Int(_)
            | CType::ThreadId
            | CType::Mutex
            | CType::Cond
            | CType::Struct(_)
            | CType::Opaque(_) => form.copy(),
        }
    }

    /// Adds a form that isn't there. Where no memory is found the table is as before.
    fn add(&mut self, form: CType) -> Result<TypeId, NoMemory>
        requires form { IsForm self.old form }
        requires small { is_over (form_size self.old form) ≡ false }
        requires room { length self.old.types < 4294967295 }
        requires new { (t : ℕ) → slice_get self.old.types t ≡ Some form → ⊥ }
        ensures ok { IfOk result (λ t. (t ≡ length self.old.types) × IsAdded self.old self.new form) }
        ensures err { OnErr result (self.new ≡ self.old) }
    {
        let t = TypeId(self.types.len() as u32);
        let key = self.key(&form)?;
        let size = self.form_size(&form).unwrap();
        let holds_struct = self.form_holds_struct(&form);
        let count = self.classes.len();
        match self.classes.find(&key) {
            Some(place) => {
                let facts = TypeFacts {
                    size,
                    holds_struct,
                    least: *self.classes.at(place).1,
                };
                self.types.push(form, facts)?;
                Ok(t)
            }
            None => {
                let facts = TypeFacts {
                    size,
                    holds_struct,
                    least: t,
                };
                self.classes.push(key, t)?;
                match self.types.push(form, facts) {
                    Ok(()) => Ok(t),
                    Err(NoMemory) => {
                        self.classes.truncate(count);
                        Err(NoMemory)
                    }
                }
            }
        }
    }
}
