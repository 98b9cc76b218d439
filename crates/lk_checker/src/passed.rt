//! A parameter whose specifiers and declarator were walked (C99 6.7.5.3).
ghost use Rattle.std.specs.Prelude.{◌≡◌, Some, None, if◌then◌else◌, IfOk, IfSome, OnOk};
ghost use Rattle.std.specs.Option.{option_map};
ghost use Rattle.lk_base.specs.declared.code.Code.TheVariants as codes;
ghost use Rattle.lk_types.specs.Building.{IsPassed};
ghost use Rattle.lk_types.specs.Table.{Table, IsKnown};
ghost use Rattle.lk_typed.specs.Env.{Env};
ghost use Rattle.lk_typed.specs.Layers.{is_void_type};
ghost use Rattle.lk_typed.specs.Meaning.{meaning};
ghost use Rattle.lk_typed.specs.Names.{meaning_in, IsKnownMeaning};
ghost use Rattle.lk_typed.specs.DeclaratorRules.{of_type};
ghost use Rattle.lk_typed.specs.NodeRules.{parameter_meaning, void_rules};
ghost use Rattle.lk_check_decl.specs.Breaches.{told};
ghost use Rattle.lk_found.specs.Named.{name_in, named_at};
ghost use Rattle.lk_found.specs.Parameters.{name_of};
ghost use Rattle.lk_found.specs.Findings.{mark_at};
ghost use Rattle.lk_checker.specs.Parameters.{IsAdjusted, IsParameterDeclared, KeepsName, SettlesParameter};
ghost use Rattle.lk_checker.specs.Moves.{IsSame, Puts, IsFurther};
ghost use Rattle.lk_checker.specs.States.{IsIn, IsSound};

use crate::checker::Checker;
use lk_base::{Code, Name, NoMemory};
use lk_check_decl::{adjusted, parameter_code, parameter_name_code};
use lk_found::{At, Breach, DeclaredName, declared_name, either};
use lk_tree::{Declarator, Parameter};
use lk_typed::{Duration, ExprType, Meaning, is_void};
use lk_types::TypeId;

/// What is asked at the name of a parameter.
#[derive(Clone, Copy)]
struct AtName {
    /// What the name would stand for.
    meaning: Meaning,
    /// `Code::Incomplete`, where that is of type `void`.
    code: Option<Code>,
}

/// What a parameter of this type stands for: nothing where that is missing.
fn object_of(t: &Option<TypeId>) -> Meaning
    ensures value { (table : Table) →
        meaning_in table result ≡ parameter_meaning (option_map (meaning table) t.now) }
    ensures known { (table : Table) → IfSome t.now (IsKnown table) → IsKnownMeaning table result }
{
    match t {
        Some(t) => Meaning::Object(*t, Duration::Automatic),
        None => Meaning::Faulty,
    }
}

/// The name in a declarator, where there is one.
fn optional_name(d: &Option<Declarator>) -> Option<DeclaredName<'_>>
    ensures { option_map name_in result ≡ name_of d.now }
{
    match d {
        Some(d) => declared_name(d),
        None => None,
    }
}

/// A code, unless this holds.
fn unless(holds: bool, code: Option<Code>) -> Option<Code>
    ensures { result ≡ (if holds then None else code) }
{
    if holds { None } else { code }
}

/// `Code::LargeType`, where a type is missing because it is over a bound.
fn missing_code(is_made: bool) -> Option<Code>
    ensures { result ≡ (if is_made then None else Some codes.LargeType) }
{
    if is_made { None } else { Some(Code::LargeType) }
}

impl Checker {
    /// Whether a type is `void`.
    pub fn is_void_type(&self, t: Option<TypeId>) -> bool
        requires { IfSome t (IsKnown self.now.types) }
        ensures { result ≡ is_void_type (option_map (meaning self.now.types) t) }
    {
        match t {
            Some(t) => is_void(&self.types, &ExprType::Listed(t)),
            None => false,
        }
    }

    /// What is asked at the name of a parameter of this type.
    fn at_name(&self, t: &Option<TypeId>) -> AtName
        requires { IfSome t.now (IsKnown self.now.types) }
        ensures value { meaning_in self.now.types result.meaning
            ≡ parameter_meaning (option_map (meaning self.now.types) t.now) }
        ensures known { IsKnownMeaning self.now.types result.meaning }
        ensures code { result.code ≡ told (of_type (option_map (meaning self.now.types) t.now) void_rules) }
    {
        AtName {
            meaning: object_of(t),
            code: parameter_name_code(&self.types, *t),
        }
    }

    /// Keeps the codes at the name of a parameter: `Code::Redeclared` where it may not be declared here, and
    /// `Code::Incomplete` of `void`.
    fn keep_at_name(&mut self, at: At, name: &Name, t: &Option<TypeId>) -> Result<(), NoMemory>
        requires sound { IsSound self.old }
        requires known { IfSome t.now (IsKnown self.old.types) }
        ensures same { OnOk result (IsSame self.old self.new) }
        ensures keeps { OnOk result ((env : Env) → IsIn self.old env →
            KeepsName self.old self.new env (option_map (meaning self.old.types) t.now)
            (Some (named_at name.now at))) }
    {
        let AtName { meaning, code } = self.at_name(t);
        self.keep_name(at, name, meaning)?;
        self.keep(at, code)?;
        Ok(())
    }

    /// Keeps the codes at the name of a parameter, where it has one.
    fn keep_parameter_name(
        &mut self,
        d: &Option<Declarator>,
        t: &Option<TypeId>,
    ) -> Result<(), NoMemory>
        requires sound { IsSound self.old }
        requires known { IfSome t.now (IsKnown self.old.types) }
        ensures same { OnOk result (IsSame self.old self.new) }
        ensures keeps { OnOk result ((env : Env) → IsIn self.old env →
            KeepsName self.old self.new env (option_map (meaning self.old.types) t.now) (name_of d.now)) }
    {
        match optional_name(d) {
            Some(found) => {
                self.keep_at_name(found.at, found.name, t)?;
                Ok(())
            }
            None => Ok(()),
        }
    }

    /// The type of a parameter, adjusted, by the type as it is written. The codes of that are kept.
    fn adjusted_type(
        &mut self,
        at: At,
        is_named: bool,
        is_bare_void: bool,
        t: &Option<TypeId>,
    ) -> Result<Option<TypeId>, NoMemory>
        requires sound { IsSound self.old }
        requires known { IfSome t.now (IsKnown self.old.types) }
        ensures puts { OnOk result (Puts self.old self.new) }
        ensures adjusted { IfOk result (λ ty. (env : Env) → IsIn self.old env →
            IsAdjusted self.old self.new env (mark_at at) is_named is_bare_void
            (option_map (meaning self.old.types) t.now) ty) }
        ensures known { IfOk result (λ ty. IfSome ty (IsPassed self.new.types)) }
    {
        match t {
            Some(t) => {
                let ty = self.adjusted_of(at, is_named, is_bare_void, *t)?;
                Ok(ty)
            }
            None => Ok(None),
        }
    }

    /// The same of a type that isn't missing.
    fn adjusted_of(
        &mut self,
        at: At,
        is_named: bool,
        is_bare_void: bool,
        t: TypeId,
    ) -> Result<Option<TypeId>, NoMemory>
        requires sound { IsSound self.old }
        requires known { IsKnown self.old.types t }
        ensures puts { OnOk result (Puts self.old self.new) }
        ensures adjusted { IfOk result (λ ty. (env : Env) → IsIn self.old env →
            IsAdjusted self.old self.new env (mark_at at) is_named is_bare_void
            (Some (meaning self.old.types t)) ty) }
        ensures known { IfOk result (λ ty. IfSome ty (IsPassed self.new.types)) }
    {
        let broken = parameter_code(&self.types, is_named, false, Some(t));
        let is_void = is_void(&self.types, &ExprType::Listed(t));
        let is_missing = either(broken.is_some(), is_void);
        let code = unless(is_bare_void, broken);
        self.keep(at, code)?;
        let made = adjusted(&mut self.types, t)?;
        self.types.is_table();
        let large = missing_code(made.is_some());
        self.keep(at, large)?;
        if is_missing {
            return Ok(None);
        }
        Ok(made)
    }

    /// Declares a parameter of this type, where it has a name.
    fn declare_parameter(
        &mut self,
        d: &Option<Declarator>,
        ty: &Option<TypeId>,
    ) -> Result<(), NoMemory>
        requires sound { IsSound self.old }
        requires known { IfSome ty.now (IsKnown self.old.types) }
        ensures types { OnOk result (self.new.types ≡ self.old.types) }
        ensures structs { OnOk result (self.new.names.structs ≡ self.old.names.structs) }
        ensures declared { OnOk result (IsParameterDeclared self.old self.new
            (option_map (meaning self.old.types) ty.now) (name_of d.now)) }
    {
        match optional_name(d) {
            Some(found) => {
                let meaning = object_of(ty);
                self.declare_plain(found.name, meaning, found.at.ordinal)?;
                Ok(())
            }
            None => Ok(()),
        }
    }

    /// The type of a parameter that is written as this one, with these codes of its specifiers. Its codes and
    /// those of its name are kept, and it is declared.
    pub fn settle_parameter(
        &mut self,
        p: &Parameter,
        breaches: &[Breach],
        t: &Option<TypeId>,
        is_bare_void: bool,
    ) -> Result<Option<TypeId>, NoMemory>
        requires sound { IsSound self.old }
        requires known { IfSome t.now (IsKnown self.old.types) }
        ensures further { OnOk result (IsFurther self.old self.new) }
        ensures settled { IfOk result (SettlesParameter self.old self.new p.now breaches.now is_bare_void
            (option_map (meaning self.old.types) t.now)) }
        ensures known { IfOk result (λ ty. IfSome ty (IsPassed self.new.types)) }
    {
        let at = At {
            spot: p.spot,
            ordinal: p.ordinal,
        };
        self.keep_parameter_name(&p.declarator, t)?;
        self.keep_all(at, breaches)?;
        let is_named = optional_name(&p.declarator).is_some();
        let ty = self.adjusted_type(at, is_named, is_bare_void, t)?;
        self.declare_parameter(&p.declarator, &ty)?;
        Ok(ty)
    }
}
