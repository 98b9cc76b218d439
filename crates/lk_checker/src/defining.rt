//! The structs and enumerations that specifiers define (C99 6.7.2.1 to 6.7.2.3).
ghost use Rattle.std.specs.Prelude.{◌≡◌, ◌<◌, ◌∷◌, [], Some, None, length, slice_get, if◌then◌else◌, OnOk, IfOk, IfSome};
ghost use Rattle.std.specs.Option.{option_copied, option_map};
ghost use Rattle.lk_types.specs.Table.{IsKnown};
ghost use Rattle.lk_typed.specs.Env.{Env, AnEnumTag, Completes, extend, nothing};
ghost use Rattle.lk_typed.specs.Meaning.{meaning};
ghost use Rattle.lk_typed.specs.Told.{MemberTold, members_made, steps, struct_begins, struct_meant_by, tag_additions};
ghost use Rattle.lk_typed.specs.Ty as ty;
ghost use Rattle.lk_typed.specs.declared.members.Members.TheVariants as members;
ghost use Rattle.lk_found.specs.MembersOf.{AreMembers, HasFields};
ghost use Rattle.lk_found.specs.Begun.{definition_begun, KeepsBegun};
ghost use Rattle.lk_found.specs.Specifying.{KeepsOthersBegun, PutsType};
ghost use Rattle.lk_checker.specs.Moves.{Grows, GrowsAlone, GoesOn, IsMeant, RecordsTag, IsFurther};
ghost use Rattle.lk_checker.specs.Naming.{BeginsStruct};
ghost use Rattle.lk_checker.specs.States.{IsIn, IsSound, kept_in};

use crate::checker::Checker;
use crate::naming::enum_type;
use lk_base::{Name, NoMemory};
use lk_found::{Gathered, MembersFound, admits};
use lk_names::TagUse;
use lk_typed::TagMeaning;
use lk_types::TypeId;

/// A struct whose definition has begun.
#[derive(Clone, Copy)]
pub struct BegunStruct {
    /// Its number.
    pub number: u32,
    /// Whether its tag may be defined here.
    pub is_admitted: bool,
}

impl Checker {
    /// The struct that `struct tag {` defines: that of the tag, or one that no tag names where
    /// the tag may not stand there.
    fn defined_struct(&mut self, tag: Option<&Name>) -> Result<u32, NoMemory>
        requires { IsSound self.old }
        ensures may_begin { IfOk result (λ s. slice_get self.new.names.structs s ≡ Some members.NotYet) }
        ensures grows { OnOk result (GrowsAlone self.old self.new) }
        ensures tag { OnOk result ((env : Env) → IsIn self.old env →
            RecordsTag self.old self.new env (definition_begun env (option_copied tag.entry))) }
        ensures begun { OnOk result (KeepsBegun self.old.names.structs self.new.names.structs) }
        ensures means { IfOk result (λ s. (env : Env) → IsIn self.old env →
            IsMeant self.new env (struct_meant_by env (option_copied tag.entry)) s) }
    {
        if !admits(&self.names, TagUse::DefinesStruct, tag) {
            let s = self.new_struct(None)?;
            return Ok(s);
        }
        let s = self.struct_for(TagUse::DefinesStruct, tag)?;
        Ok(s)
    }

    /// `struct tag {`: the definition of this struct has begun.
    pub(crate) fn begin_definition(&mut self, tag: Option<&Name>) -> Result<u32, NoMemory>
        requires { IsSound self.old }
        ensures is { IfOk result (λ s. slice_get self.new.names.structs s ≡ Some members.Begun) }
        ensures grows { OnOk result (GrowsAlone self.old self.new) }
        ensures tag { OnOk result ((env : Env) → IsIn self.old env →
            RecordsTag self.old self.new env (definition_begun env (option_copied tag.entry))) }
        ensures begun { OnOk result (KeepsBegun self.old.names.structs self.new.names.structs) }
        ensures fresh { IfOk result (λ s. slice_get self.old.names.structs s ≡ Some members.Begun → ⊥) }
        ensures number { IfOk result (λ s. (env : Env) → IsIn self.old env →
            s ≡ (struct_meant_by env (option_copied tag.entry)).number) }
        ensures behind { OnOk result ((env : Env) → IsIn self.old env →
            IsIn self.new (extend env (struct_begins env (option_copied tag.entry)))) }
    {
        let s = self.defined_struct(tag)?;
        self.begin_members(s);
        Ok(s)
    }

    /// `struct tag {`, with its code.
    pub fn begin_struct(
        &mut self,
        tag: Option<&Name>,
        out: &mut Gathered,
    ) -> Result<BegunStruct, NoMemory>
        requires { IsSound self.old }
        ensures further { OnOk result (IsFurther self.old self.new) }
        ensures kept { OnOk result (kept_in self.new ≡ kept_in self.old) }
        ensures tag { OnOk result ((env : Env) → IsIn self.old env →
            RecordsTag self.old self.new env (definition_begun env (option_copied tag.entry))) }
        ensures is { IfOk result (λ begun.
            slice_get self.new.names.structs begun.number ≡ Some members.Begun) }
        ensures fresh { IfOk result (λ begun.
            slice_get self.old.names.structs begun.number ≡ Some members.Begun → ⊥) }
        ensures begins { IfOk result (λ begun. (env : Env) → IsIn self.old env →
            BeginsStruct self.new env (option_copied tag.entry) out.old out.new begun) }
    {
        let is_admitted = self.put_tag_use(TagUse::DefinesStruct, tag, out)?;
        let number = self.begin_definition(tag)?;
        Ok(BegunStruct {
            number,
            is_admitted,
        })
    }

    /// Completes a struct with these members, or makes it faulty.
    fn complete(&mut self, s: u32, found: MembersFound) -> Result<(), NoMemory>
        requires sound { IsSound self.old }
        requires begun { slice_get self.old.names.structs s ≡ Some members.Begun }
        requires fields { HasFields self.old.types found }
        ensures grows { OnOk result (Grows self.old self.new) }
        ensures others { OnOk result (KeepsOthersBegun s self.old.names.structs self.new.names.structs) }
        ensures known { OnOk result (s < length self.new.names.structs) }
        ensures behind { OnOk result ((env : Env) (told : MemberTold) → IsIn self.old env →
            AreMembers self.old.types found told →
            IsIn self.new (extend env (steps (Completes s (members_made told) ∷ [])))) }
    {
        let MembersFound {
            fields,
            is_sound,
            ..
        } = found;
        if !is_sound || fields.is_empty() {
            self.fail_members(s);
            return Ok(());
        }
        self.complete_members(s, fields.into_vec())?;
        Ok(())
    }

    /// The type of a struct, where its definition is admitted.
    fn type_if_admitted(&mut self, begun: BegunStruct) -> Result<Option<TypeId>, NoMemory>
        requires sound { IsSound self.old }
        requires known { begun.number < length self.old.names.structs }
        ensures grows { OnOk result (Grows self.old self.new) }
        ensures names { OnOk result (self.new.names ≡ self.old.names) }
        ensures known { IfOk result (λ t. IfSome t (IsKnown self.new.types)) }
        ensures means { IfOk result (λ t. option_map (meaning self.new.types) t ≡
            (if begun.is_admitted then Some (ty.Struct begun.number) else None)) }
    {
        if !begun.is_admitted {
            return Ok(None);
        }
        let t = self.struct_type(begun.number)?;
        Ok(Some(t))
    }

    /// `}` of a struct with these members.
    pub fn end_struct(
        &mut self,
        begun: BegunStruct,
        found: MembersFound,
        out: &mut Gathered,
    ) -> Result<(), NoMemory>
        requires sound { IsSound self.old }
        requires begun { slice_get self.old.names.structs begun.number ≡ Some members.Begun }
        requires fields { HasFields self.old.types found }
        ensures grows { OnOk result (Grows self.old self.new) }
        ensures others { OnOk result
            (KeepsOthersBegun begun.number self.old.names.structs self.new.names.structs) }
        ensures behind { OnOk result ((env : Env) (told : MemberTold) → IsIn self.old env →
            AreMembers self.old.types found told →
            IsIn self.new (extend env (steps (Completes begun.number (members_made told) ∷ [])))) }
        ensures put { OnOk result (PutsType self.old.types self.new.types out.old out.new
            (if begun.is_admitted then Some (ty.Struct begun.number) else None) found.holds_sizeof) }
    {
        out.put_sizeof(found.holds_sizeof);
        self.complete(begun.number, found)?;
        let t = self.type_if_admitted(begun)?;
        out.put_type(t);
        Ok(())
    }

    /// `}` of an enumeration.
    pub fn end_enum(
        &mut self,
        tag: Option<&Name>,
        is_admitted: bool,
        holds_sizeof: bool,
        out: &mut Gathered,
    ) -> Result<(), NoMemory>
        requires { IsSound self.old }
        ensures grows { OnOk result (Grows self.old self.new) }
        ensures structs { OnOk result (self.new.names.structs ≡ self.old.names.structs) }
        ensures behind { OnOk result (GoesOn self.old self.new
            (λ env. if is_admitted then tag_additions (option_copied tag.entry) AnEnumTag else nothing)) }
        ensures put { OnOk result (PutsType self.old.types self.new.types out.old out.new
            (if is_admitted then Some ty.int else None) holds_sizeof) }
    {
        out.put_sizeof(holds_sizeof);
        self.put_enum_tag(tag, is_admitted)?;
        out.put_type(enum_type(!is_admitted));
        Ok(())
    }

    /// The tag of an enumeration, which a use that isn't admitted leaves as it is.
    fn put_enum_tag(&mut self, tag: Option<&Name>, is_admitted: bool) -> Result<(), NoMemory>
        requires { IsSound self.old }
        ensures grows { OnOk result (Grows self.old self.new) }
        ensures structs { OnOk result (self.new.names.structs ≡ self.old.names.structs) }
        ensures behind { OnOk result (GoesOn self.old self.new
            (λ env. if is_admitted then tag_additions (option_copied tag.entry) AnEnumTag else nothing)) }
    {
        if is_admitted {
            self.put_tag(tag, TagMeaning::Enum)?;
        }
        Ok(())
    }
}
