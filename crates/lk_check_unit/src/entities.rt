//! The declarations of one name (C99 6.2.2, 6.2.7).
ghost use Rattle.std.specs.Prelude.{◌≡◌, Some, IfOk, IfSome, OnOk};
ghost use Rattle.std.specs.Option.{option_map};
ghost use Rattle.lk_types.specs.Table.{Table, IsKnown};
ghost use Rattle.lk_typed.specs.Declarations as spec;
ghost use Rattle.lk_typed.specs.Env.{Env, look_up, or_else};
ghost use Rattle.lk_typed.specs.Meaning.{meaning};
ghost use Rattle.lk_typed.specs.Names.{declared_in, meaning_in, IsKnownMeaning, IsKnownName};
ghost use Rattle.lk_typed.specs.Redeclared.{function_type, object_type};
ghost use Rattle.lk_typed.specs.Ty.{Ty};
ghost use Rattle.lk_names.specs.InScope.{env_in, IsKnownScope};
ghost use Rattle.lk_check_decl.specs.Twins.{scope_of};
ghost use Rattle.lk_checker.specs.States.{IsIn, IsSound};
ghost use Rattle.lk_check_unit.specs.Declaring.{PutsTypes};

use lk_base::{Name, NoMemory};
use lk_check_decl::{Scope, composite_if_equal, linkage_of};
use lk_checker::Checker;
use lk_names::Names;
use lk_tree::Storage;
use lk_typed::{Declared, ExprType, Linkage, Meaning, is_function};
use lk_types::{TypeId, TypeTable};
use std::alloc::Global;

/// The type of an object or a function.
fn entity_type(what: Meaning) -> Option<TypeId>
    ensures value { (table : Table) → option_map (meaning table) result ≡
        or_else (object_type (meaning_in table what)) (function_type (meaning_in table what)) }
    ensures known { (table : Table) → IsKnownMeaning table what → IfSome result (IsKnown table) }
{
    match what {
        Meaning::Object(t, _) | Meaning::Function(t) => Some(t),
        Meaning::Typedef(_)
        | Meaning::Enumerator(_)
        | Meaning::InitialiserWord(_)
        | Meaning::Faulty => None,
    }
}

/// The type of a declared object or function with linkage.
fn linked_type(old: &Declared) -> Option<TypeId>
    ensures value { (table : Table) → option_map (meaning table) result ≡
        spec.old_type (Some (declared_in table old.now)) }
    ensures known { (table : Table) → IsKnownName table old.now → IfSome result (IsKnown table) }
{
    match old.linkage {
        Linkage::External | Linkage::Internal => entity_type(old.meaning),
        Linkage::None => None,
    }
}

/// The type of an object or function with linkage that is declared before.
fn type_before(names: &Names, name: &Name) -> Option<TypeId>
    ensures value { (table : Table) (rest : Env) → option_map (meaning table) result ≡
        spec.old_type (look_up (env_in table rest names.now) name.now) }
    ensures known { (table : Table) → IsKnownScope table names.now → IfSome result (IsKnown table) }
{
    match names.look_up(name) {
        Some(old) => linked_type(old),
        None => None,
    }
}

/// The linkage of what is declared before.
fn linkage_before(names: &Names, name: &Name) -> Option<Linkage>
    ensures { (table : Table) (rest : Env) →
        option_map (λ d. d.linkage) (look_up (env_in table rest names.now) name.now) ≡ result }
{
    match names.look_up(name) {
        Some(old) => Some(old.linkage),
        None => None,
    }
}

/// Whether a type is one of functions, where it is known.
pub(crate) fn is_function_type(types: &TypeTable, t: Option<TypeId>) -> bool
    requires { IfSome t (IsKnown types.now) }
    ensures { result ≡ spec.is_function_type (option_map (meaning types.now) t) }
{
    match t {
        Some(t) => is_function(types, &ExprType::Listed(t)),
        None => false,
    }
}

/// The linkage of a declared name.
pub(crate) fn reach_of(
    checker: &Checker,
    scope: Scope,
    words: &[Storage],
    name: &Name,
    t: Option<TypeId>,
) -> Linkage
    requires { IfSome t (IsKnown checker.now.types) }
    ensures { (env : Env) → IsIn checker.now env → result ≡
        spec.reach_of env (scope_of scope) words.now name.now (option_map (meaning checker.now.types) t) }
{
    let before = linkage_before(&checker.names, name);
    let is_function = is_function_type(&checker.types, t);
    linkage_of(scope, words, is_function, before)
}

/// The type before, where a name of this linkage has it too.
fn type_to_join(names: &Names, name: &Name, reach: Linkage) -> Option<TypeId>
    ensures value { (table : Table) (rest : Env) (t : Ty) →
        spec.type_with_old (env_in table rest names.now) name.now reach (Some t) ≡
        Some (spec.composite_if_equal t (option_map (meaning table) result)) }
    ensures known { (table : Table) → IsKnownScope table names.now → IfSome result (IsKnown table) }
{
    match reach {
        Linkage::External => type_before(names, name),
        Linkage::Internal => type_before(names, name),
        Linkage::None => None,
    }
}

/// The type that a declared name has by its declarator and the declarations before it.
pub(crate) fn type_with_old(
    checker: &mut Checker,
    name: &Name,
    reach: Linkage,
    t: Option<TypeId>,
) -> Result<Option<TypeId>, NoMemory>
    requires sound { IsSound checker.old }
    requires known { IfSome t (IsKnown checker.old.types) }
    ensures puts { OnOk result (PutsTypes checker.old checker.new) }
    ensures known { IfOk result (λ found. IfSome found (IsKnown checker.new.types)) }
    ensures value { IfOk result (λ found. (env : Env) → IsIn checker.old env →
        option_map (meaning checker.new.types) found ≡
        spec.type_with_old env name.now reach (option_map (meaning checker.old.types) t)) }
{
    let old = type_to_join(&checker.names, name, reach);
    match t {
        Some(t) => {
            let made = composite_if_equal(checker.alloc, &mut checker.types, t, old)?;
            checker.types.is_table();
            Ok(Some(made))
        }
        None => Ok(None),
    }
}
