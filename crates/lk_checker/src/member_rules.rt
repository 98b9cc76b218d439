//! What a declarator of a member puts into its struct, and the codes of that (C99 6.7.2.1).
ghost use Rattle.std.specs.Prelude.{◌≡◌, ◌||◌, Bool, true, false, Some, None, List, map, is_some, if◌then◌else◌, All, IfOk, IfSome, OnOk};
ghost use Rattle.std.specs.Option.{option_map};
ghost use Rattle.lk_base.specs.declared.code.Code.TheVariants as codes;
ghost use Rattle.lk_types.specs.Sizes.{fields_size, is_too_large};
ghost use Rattle.lk_types.specs.Table.{IsKnown};
ghost use Rattle.lk_typed.specs.Env.{Additions, Env};
ghost use Rattle.lk_typed.specs.Expressions.{declarator_found};
ghost use Rattle.lk_typed.specs.Layers.{faulty_member, field_told};
ghost use Rattle.lk_typed.specs.Meaning.{meaning};
ghost use Rattle.lk_typed.specs.MemberRules.{large_struct_rules, member_rules};
ghost use Rattle.lk_typed.specs.NodeRules.{is_none_broken};
ghost use Rattle.lk_typed.specs.Sizes.{is_complete};
ghost use Rattle.lk_typed.specs.Told.{MemberTold, then_member};
ghost use Rattle.lk_typed.specs.Typings.{field_in, structs_in};
ghost use Rattle.lk_typed.specs.declared.members.Field.{Field as CodeField};
ghost use Rattle.lk_found.specs.Keepings.{KeepsEach};
ghost use Rattle.lk_found.specs.MembersOf.{AreMembers, HasFields, IsLarger, IsSizeWith, IsThereWhere, TellsFields, is_again, is_free, member_breach, member_codes};
ghost use Rattle.lk_checker.specs.MembersOf.{KeepsName, PutsMember};
ghost use Rattle.lk_checker.specs.Moves.{IsSame, KeepsAt};
ghost use Rattle.lk_checker.specs.States.{IsIn, IsSound, Tells, kept_in};

use crate::checker::Checker;
use lk_base::{Code, Name, NoMemory};
use lk_check_decl::{Fields, member_code, with_member};
use lk_check_expr::is_broken;
use lk_found::{At, DeclaratorFound, MembersFound, Specified, at_declarator, declared_name};
use lk_tree::Declarator;
use lk_types::{TypeId, TypeSize};

/// Whether a code is that of a name that is there already.
fn is_again(code: Code) -> bool
    ensures { result ≡ is_again code }
{
    matches!(code, Code::Redeclared)
}

/// A size, where the struct may have the member.
fn size_if(is_free: bool, larger: Option<TypeSize>) -> Option<TypeSize>
    ensures { result ≡ (if is_free then larger else None) }
{
    if is_free { larger } else { None }
}

/// `Code::LargeType`, where there is no size.
fn size_code(larger: Option<TypeSize>) -> Option<Code>
    ensures { result ≡ (if is_some larger then None else Some codes.LargeType) }
{
    match larger {
        Some(_) => None,
        None => Some(Code::LargeType),
    }
}

impl Checker {
    /// Keeps a code of a member, where there is one: `Code::Redeclared` tells its name.
    fn keep_member_code(&mut self, at: At, code: Option<Code>, name: &Name) -> Result<(), NoMemory>
        ensures { OnOk result (Tells self.old self.new at (option_map (member_breach name.now) code)) }
    {
        match code {
            Some(code) => {
                if is_again(code) {
                    self.keep_named(at, Some(code), name)
                } else {
                    self.keep(at, Some(code))
                }
            }
            None => Ok(()),
        }
    }

    /// Keeps the code of a member's name behind these fields: `Code::Redeclared` or `Code::Incomplete`. The
    /// answer says whether there is none.
    fn keep_member_name(
        &mut self,
        at: At,
        name: &Name,
        t: TypeId,
        before: &Fields,
    ) -> Result<bool, NoMemory>
        requires sound { IsSound self.old }
        requires known { IsKnown self.old.types t }
        ensures kept { OnOk result ((env : Env) → IsIn self.old env → KeepsAt self.old self.new at
            (member_rules env (map (field_in self.old.types) before.now) name.now (meaning self.old.types t))) }
        ensures same { OnOk result (IsSame self.old self.new) }
        ensures none { IfOk result (λ none. (env : Env) → IsIn self.old env → none ≡ is_none_broken
            (member_rules env (map (field_in self.old.types) before.now) name.now (meaning self.old.types t))) }
    {
        let code = member_code(&self.types, self.names.structs(), before, name, t);
        self.keep_member_code(at, code, name)?;
        Ok(code.is_none())
    }

    /// Keeps the code of a member's name, where it has one. The answer says whether it
    /// has one and there is no code.
    fn keep_name_of(&mut self, d: &Declarator, t: TypeId, before: &Fields) -> Result<bool, NoMemory>
        requires sound { IsSound self.old }
        requires known { IsKnown self.old.types t }
        ensures kept { OnOk result ((env : Env) → IsIn self.old env → KeepsName self.old self.new env
            (map (field_in self.old.types) before.now) (declarator_found d.now).name
            (meaning self.old.types t)) }
        ensures same { OnOk result (IsSame self.old self.new) }
        ensures free { IfOk result (λ free. (env : Env) → IsIn self.old env → free ≡ is_free env
            (map (field_in self.old.types) before.now) (declarator_found d.now).name
            (meaning self.old.types t)) }
    {
        match declared_name(d) {
            Some(named) => {
                let is_free = self.keep_member_name(named.at, named.name, t, before)?;
                Ok(is_free)
            }
            None => Ok(false),
        }
    }

    /// Keeps the code of a struct with one more member: `Code::LargeType`. The answer is how large it is,
    /// where there is none.
    fn keep_member_size(
        &mut self,
        at: At,
        t: TypeId,
        size: TypeSize,
    ) -> Result<Option<TypeSize>, NoMemory>
        requires sound { IsSound self.old }
        requires known { IsKnown self.old.types t }
        requires small { is_too_large size ≡ false }
        ensures kept { OnOk result ((env : Env) (fields : List CodeField) → IsIn self.old env →
            All (λ field. IsKnown self.old.types field.ty) fields →
            size ≡ fields_size self.old.types (map (λ field. field.ty) fields) →
            KeepsAt self.old self.new at
            (large_struct_rules env (map (field_in self.old.types) fields) (meaning self.old.types t))) }
        ensures same { OnOk result (IsSame self.old self.new) }
        ensures larger { IfOk result (λ larger. (env : Env) (fields : List CodeField) → IsIn self.old env →
            All (λ field. IsKnown self.old.types field.ty) fields →
            size ≡ fields_size self.old.types (map (λ field. field.ty) fields) →
            IsLarger self.old.types env fields t larger) }
    {
        let larger = with_member(&self.types, size, t);
        self.keep(at, size_code(larger))?;
        Ok(larger)
    }

    /// How large the struct is with a member of this type, where it may have it as a
    /// field. The codes of that are kept.
    fn size_with(
        &mut self,
        d: &Declarator,
        t: TypeId,
        out: &MembersFound,
    ) -> Result<Option<TypeSize>, NoMemory>
        requires sound { IsSound self.old }
        requires known { IsKnown self.old.types t }
        requires fields { HasFields self.old.types out.now }
        ensures keeps { OnOk result ((env : Env) → IsIn self.old env → KeepsEach (kept_in self.old)
            (member_codes env (map (field_in self.old.types) out.now.fields) d.now
            (Some (meaning self.old.types t)))
            (kept_in self.new)) }
        ensures same { OnOk result (IsSame self.old self.new) }
        ensures size { IfOk result (λ size. (env : Env) → IsIn self.old env →
            IsThereWhere self.old.types env out.now.fields (declarator_found d.now).name t size) }
        ensures small { IfOk result (λ size. IfSome size (IsSizeWith self.old.types out.now.fields t)) }
        ensures complete { IfOk result (λ size. IfSome size (λ n.
            is_complete (structs_in self.old.types self.old.names.structs) (meaning self.old.types t) ≡ true)) }
    {
        let is_free = self.keep_name_of(d, t, &out.fields)?;
        let larger = self.keep_member_size(at_declarator(d), t, out.size)?;
        Ok(size_if(is_free, larger))
    }

    /// Puts a field, where the struct may have it, and its type is no faulty struct.
    fn put_field_of(
        &self,
        d: &Declarator,
        t: TypeId,
        size: Option<TypeSize>,
        out: &mut MembersFound,
    ) -> Result<(), NoMemory>
        requires sound { IsSound self.now }
        requires known { IsKnown self.now.types t }
        requires small { IfSome size (IsSizeWith self.now.types out.old.fields t) }
        requires complete { IfSome size (λ n.
            is_complete (structs_in self.now.types self.now.names.structs) (meaning self.now.types t) ≡ true) }
        requires fields { HasFields self.now.types out.old }
        ensures holds_sizeof { OnOk result (out.new.holds_sizeof ≡ out.old.holds_sizeof) }
        ensures fields { OnOk result (HasFields self.now.types out.new) }
        ensures puts { OnOk result ((env : Env) (others : MemberTold) (added : Additions) (holds : Bool) →
            IsIn self.now env →
            TellsFields self.now.types out.old others →
            IsThereWhere self.now.types env out.old.fields (declarator_found d.now).name t size →
            TellsFields self.now.types out.new (then_member others (field_told env others.fields
            (declarator_found d.now).name (Some (meaning self.now.types t)) (faulty_member added holds)))) }
    {
        if is_broken(&self.types, self.names.structs(), t) {
            out.fail();
            return Ok(());
        }
        let Some(size) = size else {
            out.fail();
            return Ok(());
        };
        let Some(named) = declared_name(d) else {
            out.fail();
            return Ok(());
        };
        out.put_field(named.name, t, size)?;
        Ok(())
    }

    /// A `sizeof` stands in the specifiers of a member, or not.
    pub fn put_specified(&self, told: &Specified, out: &mut MembersFound)
        requires { HasFields self.now.types out.old }
        ensures fields { HasFields self.now.types out.new }
        ensures put { out.new ≡ record out.old {
          holds_sizeof = out.old.holds_sizeof || told.now.holds_sizeof;
        } }
    {
        out.put_sizeof(told.holds_sizeof);
    }

    /// Puts what the declarator of a member declares: a field, or none where it is a
    /// bit-field. Its codes are kept.
    pub fn put_member(
        &mut self,
        d: &Declarator,
        found: &DeclaratorFound,
        is_bit_field: bool,
        out: &mut MembersFound,
    ) -> Result<(), NoMemory>
        requires sound { IsSound self.old }
        requires known { IfSome found.now.ty (IsKnown self.old.types) }
        requires fields { HasFields self.old.types out.old }
        ensures same { OnOk result (IsSame self.old self.new) }
        ensures fields { OnOk result (HasFields self.new.types out.new) }
        ensures puts { OnOk result ((behind : Env) (others : MemberTold) → IsIn self.old behind →
            AreMembers self.old.types out.old others →
            PutsMember self.old self.new behind is_bit_field others d.now
            (option_map (meaning self.old.types) found.now.ty) found.now.holds_sizeof out.new) }
    {
        out.put_sizeof(found.holds_sizeof);
        let t = match found.ty {
            Some(t) => t,
            None => {
                out.fail();
                return Ok(());
            }
        };
        let size = self.size_with(d, t, out)?;
        if is_bit_field {
            out.fail();
            return Ok(());
        }
        self.put_field_of(d, t, size, out)?;
        Ok(())
    }
}
