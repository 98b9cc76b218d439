//! The check of a source.
ghost use Rattle.std.specs.Prelude.{◌∷◌, [], None, IfErr, IfOk, OnOk, option_map};
ghost use Rattle.lk_tree.specs.declared.statement.Decl.TheVariants as decl;
ghost use Rattle.lk_typed.specs.Elements.{HasFewElements};
ghost use Rattle.lk_typed.specs.Meaning.{IsReady};
ghost use Rattle.lk_typed.specs.Units as spec;
ghost use Rattle.lk_names.specs.InScope.{IsKnownScope};
ghost use Rattle.lk_found.specs.Structs.{AreListed};
ghost use Rattle.lk_found.specs.Findings.{refusal_of};
ghost use Rattle.lk_checker.specs.States.{IsIn, IsSound, kept_in};
ghost use Rattle.lk_checker.specs.Sources.{IsBehind, IsOutsideOf, RecordsOf, TellsFirst};
ghost use Rattle.lk_check_unit.specs.Sources.{IsRefused, IsSetOf, PutsNames, WalksOver};

use crate::at_end::ask_pending;
use crate::declarations::nothing_pending;
use crate::externals::externals;
use indexmap::IndexSet;
use lk_base::{Fault, Name, NoMemory, Refusal};
use lk_checker::{Checked, Checker, Outside};
use lk_found::declared_name;
use lk_predeclared::begin;
use lk_tree::{Decl, Function, Unit};
use std::alloc::Global;

/// Puts a name into a set.
fn put_name(name: &Name, out: &mut IndexSet<Name>) -> Result<(), NoMemory>
    ensures { OnOk result (PutsNames (name.now ∷ []) out.old out.new) }
{
    let name = name.copy()?;
    out.insert(name)?;
    Ok(())
}

/// Puts the name of a function that is defined.
fn put_function(node: &Function, out: &mut IndexSet<Name>) -> Result<(), NoMemory>
    ensures { OnOk result (PutsNames (spec.defined_by (decl.Function node.now)) out.old out.new) }
{
    match declared_name(&node.declarator) {
        Some(named) => put_name(named.name, out),
        None => Ok(()),
    }
}

/// Puts the name of the function that an external declaration defines, where it is a definition.
fn put_defined(d: &Decl, out: &mut IndexSet<Name>) -> Result<(), NoMemory>
    ensures { OnOk result (PutsNames (spec.defined_by d.now) out.old out.new) }
{
    match d {
        Decl::Function(node) => put_function(node, out),
        Decl::Declare(_) | Decl::Empty(_) => Ok(()),
    }
}

/// The names of the functions that a source defines.
fn defined_in(alloc: Global, list: &[Decl]) -> Result<IndexSet<Name>, NoMemory>
    ensures { IfOk result (IsSetOf (spec.defined_in list.now)) }
{
    let mut names = IndexSet::new(alloc);
    for d in list {
        put_defined(d, &mut names)?;
    }
    Ok(names)
}

/// These names as a set.
fn set_of(alloc: Global, list: &[Name]) -> Result<IndexSet<Name>, NoMemory>
    ensures { IfOk result (IsSetOf list.now) }
{
    let mut names = IndexSet::new(alloc);
    for name in list {
        put_name(name, &mut names)?;
    }
    Ok(names)
}

/// What is known of a source before it is checked.
fn outside(alloc: Global, unit: &Unit, externs: &[Name]) -> Result<Outside, NoMemory>
    ensures { IfOk result (λ outside. IsOutsideOf outside externs.now unit.now) }
{
    Ok(Outside {
        defined: defined_in(alloc, unit.externals.list())?,
        externs: set_of(alloc, externs)?,
    })
}

/// Walks over the external declarations of a source, and asks at its end what waits for it.
fn walk_over(alloc: Global, checker: &mut Checker, list: &[Decl]) -> Result<(), NoMemory>
    requires { IsSound checker.old }
    ensures { OnOk result (WalksOver checker.old checker.new list.now) }
{
    let mut pending = nothing_pending(alloc);
    externals(checker, list, &mut pending)?;
    ask_pending(checker, pending.list())?;
    Ok(())
}

/// The checker behind a source.
fn behind(alloc: Global, unit: &Unit, externs: &[Name]) -> Result<Checker, NoMemory>
    ensures told { IfOk result (λ checker.
        TellsFirst externs.now unit.now (option_map refusal_of (kept_in checker).least)) }
    ensures ready { IfOk result (λ checker. IsReady checker.types) }
    ensures few { IfOk result (λ checker. HasFewElements checker.types) }
    ensures known { IfOk result (λ checker. IsKnownScope checker.types checker.names) }
    ensures structs { IfOk result (λ checker. AreListed checker.types checker.names.structs) }
    ensures scope { IfOk result (λ checker. IsIn checker (spec.at_end externs.now unit.now)) }
    ensures outside { IfOk result (λ checker. IsOutsideOf checker.outside externs.now unit.now) }
    ensures records { IfOk result (λ checker.
        RecordsOf externs.now unit.now checker.types checker.records) }
{
    let outside = outside(alloc, unit, externs)?;
    let mut checker = begin(alloc, outside)?;
    let walked = walk_over(alloc, &mut checker, unit.externals.list());
    walked.and(Ok(checker))
}

/// The refusal by the least fault of a source, where it has one. `externs` are the names that `--externs`
/// lists.
///
/// `Err` comes for want of memory.
pub fn check_faults(
    alloc: Global,
    unit: &Unit,
    externs: &[Name],
) -> Result<Option<Refusal>, NoMemory>
    ensures { IfOk result (TellsFirst externs.now unit.now) }
{
    let mut checker = behind(alloc, unit, externs)?;
    let first = checker.first_fault();
    drop(checker);
    Ok(first)
}

/// A source that is checked, with what is found at its nodes. `externs` are the names that `--externs` lists.
///
/// A source with a fault is refused by its least one.
pub fn check(alloc: Global, unit: &Unit, externs: &[Name]) -> Result<Checked, Fault>
    ensures ok { OnOk result (TellsFirst externs.now unit.now None) }
    ensures err { IfErr result (IsRefused externs.now unit.now) }
    ensures ready { IfOk result (λ checked. IsReady checked.types) }
    ensures few { IfOk result (λ checked. HasFewElements checked.types) }
    ensures records { IfOk result (λ checked.
        RecordsOf externs.now unit.now checked.types checked.records) }
    ensures behind { IfOk result (IsBehind externs.now unit.now) }
{
    let checker = behind(alloc, unit, externs)?;
    match checker.checked() {
        Ok(checked) => Ok(checked),
        Err(refusal) => Err(Fault::Refused(refusal)),
    }
}
