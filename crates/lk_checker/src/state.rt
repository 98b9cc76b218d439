//! How the structs and tags of a source come into the state of the checker, in its table of types and its
//! names alike (C99 6.7.2.1, 6.7.2.3).
ghost use Rattle.std.specs.Prelude.{◌≡◌, ◌<◌, ◌++◌, ◌∷◌, [], Some, true, false, length, map, All, IfOk, OnOk, slice_get, slice_set};
ghost use Rattle.std.specs.Option.{option_copied};
ghost use Rattle.lk_types.specs.Building.{IsPartOfObjects};
ghost use Rattle.lk_types.specs.Sizes.{fields_size, is_too_large};
ghost use Rattle.lk_types.specs.Table.{IsKnown, is_empty};
ghost use Rattle.lk_typed.specs.Env.{Env, Begins, Completes, Begun, Known, Faulty};
ghost use Rattle.lk_typed.specs.Meaning.{meaning};
ghost use Rattle.lk_typed.specs.Names.{tag_meaning_in};
ghost use Rattle.lk_typed.specs.Redeclared.{DefinesStruct, may_use};
ghost use Rattle.lk_typed.specs.Told.{meant, steps, struct_meant, tag_additions, tag_found};
ghost use Rattle.lk_typed.specs.Ty as ty;
ghost use Rattle.lk_typed.specs.Typings.{field_in};
ghost use Rattle.lk_typed.specs.declared.members.Members.TheVariants as members;
ghost use Rattle.lk_names.specs.InScope.{HasStruct};
ghost use Rattle.lk_names.specs.Uses.{rules_use};
ghost use Rattle.lk_found.specs.Begun.{begun_where, KeepsBegun};
ghost use Rattle.lk_found.specs.Structs.{member_of};
ghost use Rattle.lk_checker.specs.Moves.{env_of, Grows, GrowsAlone, GoesOn, IsMeant, RecordsTag};
ghost use Rattle.lk_checker.specs.States.{IsIn, IsSound};

use crate::checker::Checker;
use lk_base::{Name, NoMemory, Seq};
use lk_found::known_struct;
use lk_names::TagUse;
use lk_typed::{Field, Members, Tag, TagMeaning};
use lk_types::{CType, StructMember, TypeId};
use std::alloc::Global;

impl Checker {
    /// The number of a new struct with this tag, of whose members nothing is known.
    pub(crate) fn new_struct(&mut self, tag: Option<&Name>) -> Result<u32, NoMemory>
        requires { IsSound self.old }
        ensures number { IfOk result (λ s. s ≡ length self.old.names.structs) }
        ensures structs { OnOk result (self.new.names.structs ≡ self.old.names.structs ++ members.NotYet ∷ []) }
        ensures grows { OnOk result (GrowsAlone self.old self.new) }
        ensures tag { OnOk result ((env : Env) → IsIn self.old env →
            RecordsTag self.old self.new env (Some (option_copied tag.entry))) }
        ensures behind { OnOk result (GoesOn self.old self.new (λ env. steps (Begins ∷ []))) }
    {
        self.types.is_table();
        if self.types.structs() == u32::MAX {
            return Err(NoMemory);
        }
        let is_outside = self.names.is_outermost();
        let s = self.names.begin_struct()?;
        // A tag is recorded of each struct, so there are as many, and this doesn't come.
        if self.records.tag_count() != s as usize {
            return Err(NoMemory);
        }
        self.records.put_tag(tag, is_outside)?;
        self.types.begin_struct()?;
        self.types.is_table();
        Ok(s)
    }

    /// Declares a tag, where there is one, with this meaning.
    pub(crate) fn put_tag(
        &mut self,
        tag: Option<&Name>,
        meaning: TagMeaning,
    ) -> Result<(), NoMemory>
        requires sound { IsSound self.old }
        requires meaning { HasStruct (length self.old.names.structs) meaning }
        ensures structs { OnOk result (self.new.names.structs ≡ self.old.names.structs) }
        ensures grows { OnOk result (Grows self.old self.new) }
        ensures behind { OnOk result (GoesOn self.old self.new
            (λ env. tag_additions (option_copied tag.entry) (tag_meaning_in meaning))) }
    {
        if let Some(name) = tag {
            let name = name.copy()?;
            self.names.put_tag(Tag { name, meaning })?;
        }
        Ok(())
    }

    /// The type of a struct.
    pub(crate) fn struct_type(&mut self, s: u32) -> Result<TypeId, NoMemory>
        requires sound { IsSound self.old }
        requires known { s < length self.old.names.structs }
        ensures known { IfOk result (IsKnown self.new.types) }
        ensures means { IfOk result (λ t. meaning self.new.types t ≡ ty.Struct s) }
        ensures names { OnOk result (self.new.names ≡ self.old.names) }
        ensures grows { OnOk result (Grows self.old self.new) }
    {
        self.types.is_table();
        let form = CType::Struct(s);
        if self.types.form_size(&form).is_none() || self.types.count() == u32::MAX {
            return Err(NoMemory);
        }
        let t = self.types.put(form)?;
        self.types.is_table();
        Ok(t)
    }
}

/// The members of a struct, as the table of types keeps them.
fn listed(alloc: Global, fields: &[Field]) -> Result<Vec<StructMember>, NoMemory>
    ensures { IfOk result (λ members. members.items ≡ map member_of fields.now) }
{
    let mut members = Vec::new(alloc);
    for field in fields {
        let name = field.name.copy()?;
        members.push(StructMember { name, ty: field.ty })?;
    }
    Ok(members)
}

impl Checker {
    /// The struct that a use of a tag speaks of, which begins here where there is none yet.
    pub(crate) fn struct_for(&mut self, wanted: TagUse, tag: Option<&Name>) -> Result<u32, NoMemory>
        requires { IsSound self.old }
        ensures known { IfOk result (λ s. s < length self.new.names.structs) }
        ensures grows { OnOk result (GrowsAlone self.old self.new) }
        ensures tag { OnOk result ((env : Env) → IsIn self.old env → RecordsTag self.old self.new env
            (begun_where (struct_meant (tag_found env (rules_use wanted) (option_copied tag.entry)))
            (option_copied tag.entry))) }
        ensures begun { OnOk result (KeepsBegun self.old.names.structs self.new.names.structs) }
        ensures may_begin { IfOk result (λ s. (rest : Env) → may_use (env_of self.old rest)
            (tag_found (env_of self.old rest) (rules_use wanted) (option_copied tag.entry)) DefinesStruct
            ≡ true →
            slice_get self.new.names.structs s ≡ Some members.NotYet) }
        ensures means { IfOk result (λ s. (env : Env) → IsIn self.old env → IsMeant self.new env
            (meant env (tag_found env (rules_use wanted) (option_copied tag.entry)) (option_copied tag.entry))
            s) }
    {
        match known_struct(&self.names, wanted, tag) {
            Some(s) => Ok(s),
            None => {
                let s = self.new_struct(tag)?;
                self.put_tag(tag, TagMeaning::Struct(s))?;
                Ok(s)
            }
        }
    }

    /// From here on the definition of a struct has begun.
    pub(crate) fn begin_members(&mut self, s: u32)
        requires sound { IsSound self.old }
        requires may_begin { slice_get self.old.names.structs s ≡ Some members.NotYet }
        ensures grows { Grows self.old self.new }
        ensures begun { KeepsBegun self.old.names.structs self.new.names.structs }
        ensures is { slice_get self.new.names.structs s ≡ Some members.Begun }
        ensures behind { GoesOn self.old self.new (λ env. steps (Completes s Begun ∷ [])) }
    {
        self.names.set_members(s, Members::Begun);
    }

    /// From here on a struct is faulty.
    pub(crate) fn fail_members(&mut self, s: u32)
        requires sound { IsSound self.old }
        requires begun { slice_get self.old.names.structs s ≡ Some members.Begun }
        ensures grows { Grows self.old self.new }
        ensures structs { self.new.names.structs ≡ slice_set self.old.names.structs s members.Faulty }
        ensures behind { GoesOn self.old self.new (λ env. steps (Completes s Faulty ∷ [])) }
    {
        self.names.set_members(s, Members::Faulty);
    }

    /// Completes a struct with its members.
    pub(crate) fn complete_members(&mut self, s: u32, fields: Vec<Field>) -> Result<(), NoMemory>
        requires sound { IsSound self.old }
        requires begun { slice_get self.old.names.structs s ≡ Some members.Begun }
        requires some { is_empty fields.items ≡ false }
        requires parts { All (λ field. IsPartOfObjects self.old.types field.ty) fields.items }
        requires small { is_too_large (fields_size self.old.types (map (λ field. field.ty) fields.items))
            ≡ false }
        ensures grows { OnOk result (Grows self.old self.new) }
        ensures structs { OnOk result (self.new.names.structs ≡
            slice_set self.old.names.structs s (members.Known fields.items)) }
        ensures behind { OnOk result (GoesOn self.old self.new
            (λ env. steps (Completes s (Known (map (field_in self.old.types) fields.items)) ∷ []))) }
    {
        let members = listed(self.alloc, fields.as_slice())?;
        self.types.is_table();
        self.types.complete_struct(s, Seq::new(members));
        self.types.is_table();
        self.names.set_members(s, Members::Known(Seq::new(fields)));
        Ok(())
    }
}
