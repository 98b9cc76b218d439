//! Enumerators, behind their values (C99 6.7.2.2).
ghost use Rattle.std.specs.Prelude.{◌≡◌, ◌++◌, [], List, false, is_some, if◌then◌else◌, IfOk, OnOk};
ghost use Rattle.lk_typed.specs.Env.{Env};
ghost use Rattle.lk_typed.specs.Faults.{Breach};
ghost use Rattle.lk_typed.specs.HolderRules.{counted_rules, written_rules};
ghost use Rattle.lk_typed.specs.Names.{meaning_in, IsKnownMeaning};
ghost use Rattle.lk_types.specs.Table.{Table};
ghost use Rattle.lk_typed.specs.NodeRules.{item_meaning, plain_name};
ghost use Rattle.lk_typed.specs.Redeclared.{name_rules};
ghost use Rattle.lk_typed.specs.Told.{declares, enumerator, next_value as spec_next, written_value as spec_written};
ghost use Rattle.lk_check_decl.specs.Breaches.{told};
ghost use Rattle.lk_rules.specs.Keeping.{KeepsCodes};
ghost use Rattle.lk_found.specs.Keepings.{AreUnnamed};
ghost use Rattle.lk_found.specs.Findings.{mark_at};
ghost use Rattle.lk_checker.specs.Counting.{IsSettled, constant_found};
ghost use Rattle.lk_checker.specs.Moves.{Grows, GoesOn, IsSame, KeepsAt};
ghost use Rattle.lk_checker.specs.States.{IsIn, IsSound, kept_in, recorded_in};

use crate::checker::Checker;
use lk_base::{Code, Name, NoMemory};
use lk_check_decl::{next_code, next_value, written_code, written_value};
use lk_found::{At, Found};
use lk_typed::{Constant, Meaning};

/// The value of an enumerator.
#[derive(Clone, Copy)]
pub(crate) struct ItemValue {
    /// The value, where no fault takes it away.
    pub(crate) value: Option<i32>,
    /// Its code.
    pub(crate) code: Option<Code>,
}

/// What is found of an enumerator.
#[derive(Clone, Copy)]
pub struct ItemFound {
    /// Its value, where no fault takes it away.
    pub value: Option<i32>,
    /// Whether a `sizeof` stands in it.
    pub holds_sizeof: bool,
}

/// The value of an enumerator that is written as an expression.
pub(crate) fn written(constant: Option<Constant>) -> ItemValue
    ensures value { result.value ≡ spec_written constant }
    ensures code { result.code ≡ told (written_rules constant) }
{
    ItemValue {
        value: written_value(constant),
        code: written_code(constant),
    }
}

/// The value of an enumerator without an expression, behind one of this value.
pub(crate) fn counted(before: Option<i32>) -> ItemValue
    ensures value { result.value ≡ spec_next before }
    ensures code { result.code ≡ told (counted_rules before) }
{
    ItemValue {
        value: next_value(before),
        code: next_code(before),
    }
}

/// An enumerator as a name, whatever its value.
fn named(value: Option<i32>) -> Meaning
    ensures value { (table : Table) → meaning_in table result ≡ item_meaning value }
    ensures known { (table : Table) → IsKnownMeaning table result }
{
    match value {
        Some(value) => Meaning::Enumerator(i128::from(value)),
        None => Meaning::Enumerator(0),
    }
}

/// What an enumerator stands for: nothing where its value is faulty.
fn declared(value: Option<i32>) -> Meaning
    ensures value { (table : Table) → meaning_in table result ≡ enumerator value }
    ensures known { (table : Table) → IsKnownMeaning table result }
{
    match value {
        Some(value) => Meaning::Enumerator(i128::from(value)),
        None => Meaning::Faulty,
    }
}

impl Checker {
    /// Keeps the codes of an enumerator: of its value, and of its name.
    pub(crate) fn keep_item(
        &mut self,
        at: At,
        name: &Name,
        found: ItemValue,
    ) -> Result<(), NoMemory>
        requires { IsSound self.old }
        ensures types { OnOk result (self.new.types ≡ self.old.types) }
        ensures names { OnOk result (self.new.names ≡ self.old.names) }
        ensures outside { OnOk result (self.new.outside ≡ self.old.outside) }
        ensures records { OnOk result (recorded_in self.new ≡ recorded_in self.old) }
        ensures keeps { OnOk result ((env : Env) (broken : List Breach) → IsIn self.old env →
            found.code ≡ told broken → AreUnnamed broken →
            KeepsCodes (kept_in self.old) (mark_at at)
            (broken ++ name_rules env (plain_name name.now (item_meaning found.value))) (kept_in self.new)) }
    {
        self.keep(at, found.code)?;
        let meaning = named(found.value);
        self.keep_name(at, name, meaning)?;
        Ok(())
    }

    /// Declares an enumerator of this value.
    pub(crate) fn declare_item(
        &mut self,
        at: At,
        name: &Name,
        value: Option<i32>,
    ) -> Result<(), NoMemory>
        requires { IsSound self.old }
        ensures types { OnOk result (self.new.types ≡ self.old.types) }
        ensures structs { OnOk result (self.new.names.structs ≡ self.old.names.structs) }
        ensures grows { OnOk result (Grows self.old self.new) }
        ensures behind { OnOk result (GoesOn self.old self.new
            (λ env. declares name.now at.ordinal (enumerator value))) }
    {
        let meaning = declared(value);
        self.declare_plain(name, meaning, at.ordinal)?;
        Ok(())
    }

    /// Keeps the codes of an enumerator of this value, none where its expression has no type.
    fn keep_typed_item(
        &mut self,
        at: At,
        name: &Name,
        found: ItemValue,
        is_typed: bool,
    ) -> Result<(), NoMemory>
        requires { IsSound self.old }
        ensures same { OnOk result (IsSame self.old self.new) }
        ensures keeps { OnOk result ((env : Env) (broken : List Breach) → IsIn self.old env →
            found.code ≡ told broken → AreUnnamed broken → KeepsAt self.old self.new at (if is_typed then
            broken ++ name_rules env (plain_name name.now (item_meaning found.value)) else [])) }
    {
        if !is_typed {
            return Ok(());
        }
        self.keep_item(at, name, found)?;
        Ok(())
    }

    /// Keeps the codes of an enumerator of this value, none where its expression
    /// has no type, and declares it.
    pub(crate) fn settle_item(
        &mut self,
        at: At,
        name: &Name,
        found: ItemValue,
        is_typed: bool,
    ) -> Result<(), NoMemory>
        requires { IsSound self.old }
        ensures { OnOk result ((env : Env) (broken : List Breach) → IsIn self.old env →
            found.code ≡ told broken → AreUnnamed broken →
            IsSettled self.old self.new env at name.now found.value (if is_typed then
            broken ++ name_rules env (plain_name name.now (item_meaning found.value)) else [])) }
    {
        self.keep_typed_item(at, name, found, is_typed)?;
        self.declare_item(at, name, found.value)?;
        Ok(())
    }

    /// An enumerator whose value is written as an expression of which this is found.
    pub fn written_item(&mut self, at: At, name: &Name, found: Found) -> Result<ItemFound, NoMemory>
        requires { IsSound self.old }
        ensures value { IfOk result (λ item. item.value ≡ spec_written (constant_found found)) }
        ensures holds_sizeof { IfOk result (λ item. item.holds_sizeof ≡ found.look.holds_sizeof) }
        ensures settled { IfOk result (λ item. (env : Env) → IsIn self.old env →
            IsSettled self.old self.new env at name.now item.value (if is_some found.typing then
            written_rules (constant_found found) ++
            name_rules env (plain_name name.now (item_meaning item.value)) else [])) }
    {
        let value = written(found.constant());
        self.settle_item(at, name, value, found.typing.is_some())?;
        Ok(ItemFound {
            value: value.value,
            holds_sizeof: found.look.holds_sizeof,
        })
    }

    /// An enumerator without an expression, behind one of this value.
    pub fn counted_item(
        &mut self,
        at: At,
        name: &Name,
        before: Option<i32>,
    ) -> Result<ItemFound, NoMemory>
        requires { IsSound self.old }
        ensures value { IfOk result (λ item. item.value ≡ spec_next before) }
        ensures holds_sizeof { IfOk result (λ item. item.holds_sizeof ≡ false) }
        ensures settled { IfOk result (λ item. (env : Env) → IsIn self.old env →
            IsSettled self.old self.new env at name.now item.value
            (counted_rules before ++ name_rules env (plain_name name.now (item_meaning item.value)))) }
    {
        let value = counted(before);
        self.settle_item(at, name, value, true)?;
        Ok(ItemFound {
            value: value.value,
            holds_sizeof: false,
        })
    }
}
