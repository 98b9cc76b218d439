//! Specifiers that name a type by a tag or a typedef name (C99 6.7.2.2, 6.7.2.3, 6.7.7).
ghost use Rattle.std.specs.Prelude.{◌≡◌, [], Some, None, if◌then◌else◌, OnOk, IfOk, IfSome};
ghost use Rattle.std.specs.Option.{option_copied, option_map};
ghost use Rattle.lk_tree.specs.declared.expression.DeclaratorForm.TheOpen.{Specifier-F};
ghost use Rattle.lk_types.specs.Table.{Table, IsKnown};
ghost use Rattle.lk_typed.specs.Env.{Env, look_up, look_up_tag, nothing};
ghost use Rattle.lk_typed.specs.HolderRules.{enum_rules};
ghost use Rattle.lk_typed.specs.Meaning.{meaning, IsReady};
ghost use Rattle.lk_typed.specs.Ty.{int};
ghost use Rattle.lk_typed.specs.Redeclared.{tag_rules};
ghost use Rattle.lk_typed.specs.Structs.{struct_begun};
ghost use Rattle.lk_typed.specs.Told as spec;
ghost use Rattle.lk_names.specs.Uses.{rules_use};
ghost use Rattle.lk_found.specs.Begun.{begun_if_admitted, KeepsBegun};
ghost use Rattle.lk_found.specs.Specifying.{IsTagUse};
ghost use Rattle.lk_checker.specs.Moves.{GrowsAlone, RecordsTag};
ghost use Rattle.lk_checker.specs.Naming.{IsNamedType, IsSpecifierPut};
ghost use Rattle.lk_checker.specs.States.{IsIn, IsSound};

use crate::checker::Checker;
use lk_base::{Name, NoMemory};
use lk_found::{Gathered, admits, enum_breach, tag_breach};
use lk_names::{TagUse, typedef_of};
use lk_types::TypeId;

/// What `struct tag` does with its tag, by whether it is all of a declaration.
fn struct_use(alone: bool) -> TagUse
    ensures { rules_use result ≡ spec.struct_use alone }
{
    if alone {
        TagUse::DeclaresStruct
    } else {
        TagUse::NamesStruct
    }
}

/// The type of an enumeration, unless a code holds.
pub(crate) fn enum_type(is_broken: bool) -> Option<TypeId>
    ensures named { (table : Table) → IsReady table →
        option_map (meaning table) result ≡ (if is_broken then None else Some int) }
    ensures known { (table : Table) → IsReady table → IfSome result (IsKnown table) }
{
    if is_broken { None } else { Some(TypeId::INT) }
}

impl Checker {
    /// Puts the code of a use of a tag. The answer says whether it may stand.
    pub fn put_tag_use(
        &self,
        wanted: TagUse,
        tag: Option<&Name>,
        out: &mut Gathered,
    ) -> Result<bool, NoMemory>
        ensures { IfOk result (λ admitted. (env : Env) → IsIn self.now env →
            IsTagUse env (rules_use wanted) (option_copied tag.entry) out.old out.new admitted) }
    {
        let is_admitted = admits(&self.names, wanted, tag);
        let breach = tag_breach(&self.names, wanted, tag)?;
        out.put_breach(breach)?;
        Ok(is_admitted)
    }

    /// The type of `struct tag`, which may begin here; missing where the tag may not be used so.
    fn named_struct(&mut self, wanted: TagUse, name: &Name) -> Result<Option<TypeId>, NoMemory>
        requires { IsSound self.old }
        ensures known { IfOk result (λ t. IfSome t (IsKnown self.new.types)) }
        ensures grows { OnOk result (GrowsAlone self.old self.new) }
        ensures tag { OnOk result ((env : Env) → IsIn self.old env →
            RecordsTag self.old self.new env (begun_if_admitted env (rules_use wanted) name.now)) }
        ensures begun { OnOk result (KeepsBegun self.old.names.structs self.new.names.structs) }
        ensures named { IfOk result (λ t. (env : Env) → IsIn self.old env →
            IsNamedType self.new env t (spec.struct_named env (rules_use wanted) name.now)) }
    {
        if !admits(&self.names, wanted, Some(name)) {
            return Ok(None);
        }
        let s = self.struct_for(wanted, Some(name))?;
        let t = self.struct_type(s)?;
        Ok(Some(t))
    }

    /// `struct tag` (C99 6.7.2.3, 7 and 8).
    pub fn struct_named(
        &mut self,
        name: &Name,
        alone: bool,
        out: &mut Gathered,
    ) -> Result<(), NoMemory>
        requires { IsSound self.old }
        ensures grows { OnOk result (GrowsAlone self.old self.new) }
        ensures tag { OnOk result ((env : Env) → IsIn self.old env →
            RecordsTag self.old self.new env (struct_begun env alone (Specifier-F.StructTag name.now))) }
        ensures begun { OnOk result (KeepsBegun self.old.names.structs self.new.names.structs) }
        ensures put { OnOk result ((env : Env) → IsIn self.old env →
            IsSpecifierPut self.old self.new env out.old out.new
            (spec.struct_named env (spec.struct_use alone) name.now)
            (tag_rules env (spec.struct_use alone) name.now)) }
    {
        let wanted = struct_use(alone);
        let breach = tag_breach(&self.names, wanted, Some(name))?;
        let t = self.named_struct(wanted, name)?;
        out.put_breach(breach)?;
        out.put_type(t);
        Ok(())
    }

    /// `enum tag` (C99 6.7.2.3, 3).
    pub fn enum_named(&self, name: &Name, out: &mut Gathered) -> Result<(), NoMemory>
        requires { IsSound self.now }
        ensures { OnOk result ((env : Env) → IsIn self.now env →
            IsSpecifierPut self.now self.now env out.old out.new (spec.enum_named env name.now)
            (enum_rules env name.now (look_up_tag env name.now))) }
    {
        let breach = enum_breach(&self.names, name)?;
        let t = enum_type(breach.is_some());
        out.put_breach(breach)?;
        out.put_type(t);
        Ok(())
    }

    /// A typedef name (C99 6.7.7, 3).
    pub fn typedef_named(&self, name: &Name, out: &mut Gathered)
        requires { IsSound self.now }
        ensures { (env : Env) → IsIn self.now env → IsSpecifierPut self.now self.now env out.old out.new
            (spec.of_type_alone nothing (spec.typedef_of (look_up env name.now))) [] }
    {
        let t = typedef_of(self.names.look_up(name));
        out.put_type(t);
    }
}
