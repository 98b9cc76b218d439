//! Declared names (C99 6.7): their codes are kept, and they stand from the end of their declarators on.
ghost use Rattle.std.specs.Prelude.{◌≡◌, Some, IfOk, IfSome, OnOk};
ghost use Rattle.std.specs.Option.{option_map};
ghost use Rattle.lk_types.specs.Table.{IsKnown, Table};
ghost use Rattle.lk_tree.specs.declared.declaration.Init.{out-Init};
ghost use Rattle.lk_typed.specs.DeclarationRules.{env_for, wants_type, Bare};
ghost use Rattle.lk_typed.specs.Declarations as spec;
ghost use Rattle.lk_typed.specs.Env.{Env};
ghost use Rattle.lk_typed.specs.InitialiserRules.{given_rules};
ghost use Rattle.lk_typed.specs.Initialisers.{size_of_init};
ghost use Rattle.lk_typed.specs.Meaning.{meaning};
ghost use Rattle.lk_typed.specs.Names.{declared_in, IsKnownName};
ghost use Rattle.lk_typed.specs.Redeclared.{name_rules};
ghost use Rattle.lk_check_decl.specs.GivenSizes.{GivesSize};
ghost use Rattle.lk_check_decl.specs.Names.{use_rules};
ghost use Rattle.lk_check_decl.specs.Twins.{given_of, scope_of};
ghost use Rattle.lk_found.specs.Named.{name_in};
ghost use Rattle.lk_checker.specs.Moves.{IsSame, KeepsAt, IsFurther};
ghost use Rattle.lk_checker.specs.States.{IsIn, IsSound};
ghost use Rattle.lk_check_unit.specs.Declaring.{complete_rules, declared_by, meant_by, AsksComplete};
ghost use Rattle.lk_check_unit.specs.Declaring.{AsksType, DeclaresName, IsHow, IsWaiting, PutsName};
ghost use Rattle.lk_check_unit.specs.Declaring.{PutsDeclared, PutsTypes, WaitsIn, type_recorded};

use crate::entities::{is_function_type, reach_of, type_with_old};
use crate::pending::Pending;
use lk_base::NoMemory;
use lk_check_decl::{
    Given, NameUse, Scope, braces_of, completed, defines_of, given_code, has_extern, has_typedef,
    list_size, meaning_of, object_code, text_of, text_size, use_code, waits_for_end,
};
use lk_checker::Checker;
use lk_found::{At, DeclaredHere, DeclaredName};
use lk_tree::{Init, Storage};
use lk_typed::{Declared, Defines, ExprType, Linkage, form, is_function};
use lk_types::{CType, TypeId, TypeTable};

/// How a name is declared.
#[derive(Clone, Copy)]
pub(crate) struct How {
    /// The scope in which its declaration stands.
    pub(crate) scope: Scope,
    /// What the declaration gives it.
    pub(crate) given: Given,
    /// Its linkage.
    pub(crate) linkage: Linkage,
    /// What the declaration defines.
    pub(crate) defines: Defines,
}

/// What is found of a declared name.
#[derive(Clone, Copy)]
pub(crate) struct NameFound {
    /// Its type, with the size that its initialiser gives.
    pub(crate) ty: Option<TypeId>,
    /// What is to be asked at the end of the source.
    pub(crate) pending: Option<Pending>,
}

/// How a name of this type is declared.
fn how_declared(
    checker: &Checker,
    scope: Scope,
    words: &[Storage],
    given: Given,
    named: &DeclaredName<'_>,
    t: &Option<TypeId>,
) -> How
    requires { IfSome t.now (IsKnown checker.now.types) }
    ensures { IsHow checker.now scope words.now given (name_in named.now)
        (option_map (meaning checker.now.types) t.now) result }
{
    let is_function = is_function_type(&checker.types, *t);
    How {
        scope,
        given,
        linkage: reach_of(checker, scope, words, named.name, *t),
        defines: defines_of(words, is_function, given),
    }
}

/// A name as it is declared, with this type.
fn written(
    types: &TypeTable,
    words: &[Storage],
    how: &How,
    named: &DeclaredName<'_>,
    t: &Option<TypeId>,
) -> Result<Declared, NoMemory>
    requires { IfSome t.now (IsKnown types.now) }
    ensures value { IfOk result (λ declared. declared_in types.now declared ≡
        declared_by words.now how.now (name_in named.now) (option_map (meaning types.now) t.now)) }
    ensures known { IfOk result (IsKnownName types.now) }
{
    let name = named.name.copy()?;
    Ok(Declared {
        name,
        meaning: meaning_of(types, how.scope, words, *t),
        linkage: how.linkage,
        defines: how.defines,
        ordinal: named.at.ordinal,
    })
}

/// Keeps `Code::Redeclared` of a name that may not be declared here.
fn keep_redeclared(
    checker: &mut Checker,
    named: &DeclaredName<'_>,
    declared: &Declared,
) -> Result<(), NoMemory>
    requires sound { IsSound checker.old }
    requires known { IsKnownName checker.old.types declared.now }
    requires name { declared.now.name ≡ (name_in named.now).name }
    ensures kept { OnOk result ((env : Env) → IsIn checker.old env →
        KeepsAt checker.old checker.new named.now.at
        (name_rules env (declared_in checker.old.types declared.now))) }
    ensures same { OnOk result (IsSame checker.old checker.new) }
{
    let again = checker.names.redeclaration_code(&checker.types, declared);
    checker.keep_named(named.at, again, named.name)
}

/// Keeps `Code::Mismatch` of a declared name.
fn keep_use(
    checker: &mut Checker,
    words: &[Storage],
    named: &DeclaredName<'_>,
    how: &NameUse,
) -> Result<(), NoMemory>
    requires sound { IsSound checker.old }
    requires known { IsKnown checker.old.types how.now.ty }
    ensures kept { OnOk result (KeepsAt checker.old checker.new named.now.at
        (use_rules (scope_of how.now.scope) words.now (name_in named.now).name how.now.linkage
        (meaning checker.old.types how.now.ty) (given_of how.now.given))) }
    ensures same { OnOk result (IsSame checker.old checker.new) }
{
    let code = use_code(&checker.types, words, named.name, how);
    checker.keep(named.at, code)
}

/// Keeps `Code::Incomplete` of a declared name, whose type is to be complete where it is declared.
fn keep_object(
    checker: &mut Checker,
    words: &[Storage],
    at: At,
    how: &NameUse,
) -> Result<(), NoMemory>
    requires sound { IsSound checker.old }
    requires known { IsKnown checker.old.types how.now.ty }
    requires here { (env at_end : Env) →
        env_for env at_end (scope_of how.now.scope) words.now (given_of how.now.given) ≡ env }
    ensures kept { OnOk result ((at_end env : Env) → IsIn checker.old env → KeepsAt checker.old checker.new at
        (complete_rules env at_end words.now how.now (meaning checker.old.types how.now.ty))) }
    ensures same { OnOk result (IsSame checker.old checker.new) }
{
    let code = object_code(&checker.types, checker.names.structs(), words, how);
    checker.keep(at, code)
}

/// Whether a tentative definition defines an object.
fn is_object(types: &TypeTable, words: &[Storage], t: TypeId) -> bool
    requires { IsKnown types.now t }
    ensures { result ≡ wants_type words.now (meaning types.now t) Bare }
{
    !(has_typedef(words) || has_extern(words) || is_function(types, &ExprType::Listed(t)))
}

/// What is to be asked at the end of the source, of a name whose type may be completed until then.
fn waiting(types: &TypeTable, words: &[Storage], at: At, ty: TypeId) -> Option<Pending>
    requires { IsKnown types.now ty }
    ensures { IsWaiting words.now at (meaning types.now ty) ty result }
{
    if is_object(types, words, ty) {
        Some(Pending { at, ty })
    } else {
        None
    }
}

/// Keeps `Code::Incomplete` of a name that is given nothing, or tells what is to be asked at the end of the
/// source.
fn keep_bare(
    checker: &mut Checker,
    words: &[Storage],
    at: At,
    how: &NameUse,
) -> Result<Option<Pending>, NoMemory>
    requires sound { IsSound checker.old }
    requires known { IsKnown checker.old.types how.now.ty }
    requires bare { given_of how.now.given ≡ Bare }
    ensures asks { IfOk result (AsksComplete checker.old checker.new words.now at how.now) }
    ensures waits { IfOk result (WaitsIn checker.new.types how.now.scope how.now.given) }
    ensures same { OnOk result (IsSame checker.old checker.new) }
{
    if waits_for_end(how.scope, words, how.given) {
        return Ok(waiting(&checker.types, words, at, how.ty));
    }
    keep_object(checker, words, at, how)?;
    Ok(None)
}

/// Keeps `Code::Incomplete` of a declared name, or tells what is to be asked at the end of the source.
fn keep_complete(
    checker: &mut Checker,
    words: &[Storage],
    at: At,
    how: &NameUse,
) -> Result<Option<Pending>, NoMemory>
    requires sound { IsSound checker.old }
    requires known { IsKnown checker.old.types how.now.ty }
    ensures asks { IfOk result (AsksComplete checker.old checker.new words.now at how.now) }
    ensures waits { IfOk result (WaitsIn checker.new.types how.now.scope how.now.given) }
    ensures same { OnOk result (IsSame checker.old checker.new) }
{
    match how.given {
        Given::Nothing => keep_bare(checker, words, at, how),
        Given::Initialiser | Given::Body => {
            keep_object(checker, words, at, how)?;
            Ok(None)
        }
    }
}

/// Keeps the codes of a declared name by its type, where it has one.
fn keep_type_codes(
    checker: &mut Checker,
    words: &[Storage],
    named: &DeclaredName<'_>,
    how: &How,
    t: &Option<TypeId>,
) -> Result<Option<Pending>, NoMemory>
    requires sound { IsSound checker.old }
    requires known { IfSome t.now (IsKnown checker.old.types) }
    ensures asks { IfOk result (AsksType checker.old checker.new words.now how.now (name_in named.now) t.now) }
    ensures waits { IfOk result (WaitsIn checker.new.types how.now.scope how.now.given) }
    ensures same { OnOk result (IsSame checker.old checker.new) }
{
    match t {
        Some(ty) => {
            let used = NameUse {
                scope: how.scope,
                given: how.given,
                linkage: how.linkage,
                ty: *ty,
            };
            keep_use(checker, words, named, &used)?;
            keep_complete(checker, words, named.at, &used)
        }
        None => Ok(None),
    }
}

/// The size that an initialiser gives an array of these elements.
fn size_for(types: &TypeTable, element: TypeId, init: &Init) -> Result<u64, NoMemory>
    requires { IsKnown types.now element }
    ensures { IfOk result (λ size. size_of_init (meaning types.now element) (out-Init init.now) ≡ size) }
{
    match init {
        Init::Expr(e) => {
            let text = text_of(e)?;
            Ok(text_size(text))
        },
        Init::List(list) => {
            let braces = braces_of(list)?;
            Ok(list_size(types, element, braces))
        }
    }
}

/// The size that an initialiser gives a type, where that is an array.
fn size_of(types: &TypeTable, t: TypeId, init: &Init) -> Result<u64, NoMemory>
    requires { IsKnown types.now t }
    ensures { IfOk result (GivesSize init.now (meaning types.now t)) }
{
    match form(types, t) {
        CType::Array(element, _) => size_for(types, *element, init),
        CType::Void
        | CType::Int(_)
        | CType::ThreadId
        | CType::Mutex
        | CType::Cond
        | CType::Pointer(_)
        | CType::Struct(_)
        | CType::Function { .. }
        | CType::Opaque(_) => Ok(0),
    }
}

/// Keeps `Code::VariableArray` of a declared name.
fn keep_size(
    checker: &mut Checker,
    at: At,
    t: &Option<TypeId>,
    init: &Option<Init>,
) -> Result<(), NoMemory>
    requires { IfSome t.now (IsKnown checker.old.types) }
    ensures kept { OnOk result (KeepsAt checker.old checker.new at
        (given_rules (spec.elements_given init.now (option_map (meaning checker.old.types) t.now)))) }
    ensures same { OnOk result (IsSame checker.old checker.new) }
{
    match t {
        Some(t) => match init {
            Some(init) => {
                let size = size_of(&checker.types, *t, init)?;
                let code = given_code(&checker.types, *t, size);
                checker.keep(at, code)
            }
            None => Ok(()),
        },
        None => Ok(()),
    }
}

/// A type with the size that this initialiser gives.
fn sized_by(checker: &mut Checker, t: TypeId, init: &Init) -> Result<Option<TypeId>, NoMemory>
    requires sound { IsSound checker.old }
    requires known { IsKnown checker.old.types t }
    ensures puts { OnOk result (PutsTypes checker.old checker.new) }
    ensures known { IfOk result (λ made. IfSome made (IsKnown checker.new.types)) }
    ensures means { IfOk result (λ made. option_map (meaning checker.new.types) made ≡
        spec.completed (Some init.now) (Some (meaning checker.old.types t))) }
{
    let size = size_of(&checker.types, t, init)?;
    let made = completed(&mut checker.types, t, size)?;
    checker.types.is_table();
    Ok(made)
}

/// A type with the size that an initialiser gives.
pub(crate) fn sized(
    checker: &mut Checker,
    t: &Option<TypeId>,
    init: &Option<Init>,
) -> Result<Option<TypeId>, NoMemory>
    requires sound { IsSound checker.old }
    requires known { IfSome t.now (IsKnown checker.old.types) }
    ensures puts { OnOk result (PutsTypes checker.old checker.new) }
    ensures known { IfOk result (λ made. IfSome made (IsKnown checker.new.types)) }
    ensures means { IfOk result (λ made. option_map (meaning checker.new.types) made ≡
        spec.completed init.now (option_map (meaning checker.old.types) t.now)) }
{
    match t {
        Some(t) => match init {
            Some(init) => sized_by(checker, *t, init),
            None => Ok(Some(*t)),
        },
        None => Ok(None),
    }
}

/// A declared name as it is recorded, where it has a type.
fn here(declared: &Declared, t: &Option<TypeId>) -> Option<DeclaredHere>
    ensures { result ≡ option_map (λ ty. record {
      meaning = declared.now.meaning;
      linkage = declared.now.linkage;
      defines = declared.now.defines;
      ty = ty;
    }) t.now }
{
    match t {
        Some(ty) => Some(DeclaredHere {
            meaning: declared.meaning,
            linkage: declared.linkage,
            defines: declared.defines,
            ty: *ty,
        }),
        None => None,
    }
}

/// The type with which a declaration is recorded: a definition of a function with the one that its declarator
/// makes, each other one with that of its name behind it.
fn type_recorded(given: Given, made: Option<TypeId>, whole: Option<TypeId>) -> Option<TypeId>
    ensures value { (table : Table) → option_map (meaning table) result ≡
        type_recorded (given_of given) (option_map (meaning table) made) (option_map (meaning table) whole) }
    ensures known { (table : Table) → IfSome made (IsKnown table) → IfSome whole (IsKnown table) →
        IfSome result (IsKnown table) }
{
    match given {
        Given::Nothing | Given::Initialiser => whole,
        Given::Body => made,
    }
}

/// Puts a name in scope, with this type, and records its declaration with that one.
fn put_name(
    checker: &mut Checker,
    words: &[Storage],
    how: &How,
    declared: Declared,
    t: &Option<TypeId>,
    recorded: &Option<TypeId>,
) -> Result<(), NoMemory>
    requires sound { IsSound checker.old }
    requires known { IfSome t.now (IsKnown checker.old.types) }
    requires recorded { IfSome recorded.now (IsKnown checker.old.types) }
    ensures further { OnOk result (IsFurther checker.old checker.new) }
    ensures puts { OnOk result (PutsName checker.old checker.new (meant_by words.now how.now declared
        (option_map (meaning checker.old.types) t.now))) }
    ensures records { OnOk result (PutsDeclared checker.old checker.new (meant_by words.now how.now declared
        (option_map (meaning checker.old.types) t.now)) (option_map (meaning checker.old.types) recorded.now)) }
{
    let mut declared = declared;
    declared.meaning = meaning_of(&checker.types, how.scope, words, *t);
    let recorded = here(&declared, recorded);
    checker.records.put_declared(declared.ordinal, recorded)?;
    checker.names.declare(declared)
}

/// Declares a name, behind its declarator: its codes are kept, but for that of a tentative definition; and
/// from here on it stands for an entity of its type.
pub(crate) fn declare_name(
    checker: &mut Checker,
    scope: Scope,
    words: &[Storage],
    given: Given,
    named: &DeclaredName<'_>,
    t: &Option<TypeId>,
    init: &Option<Init>,
) -> Result<NameFound, NoMemory>
    requires sound { IsSound checker.old }
    requires known { IfSome t.now (IsKnown checker.old.types) }
    ensures further { OnOk result (IsFurther checker.old checker.new) }
    ensures known { IfOk result (λ found. IfSome found.ty (IsKnown checker.new.types)) }
    ensures waits { IfOk result (λ found. WaitsIn checker.new.types scope given found.pending) }
    ensures declares { IfOk result
        (DeclaresName checker.old checker.new scope words.now given (name_in named.now) t.now init.now) }
{
    let how = how_declared(checker, scope, words, given, named, t);
    let ty = type_with_old(checker, named.name, how.linkage, *t)?;
    let declared = written(&checker.types, words, &how, named, &ty)?;
    keep_redeclared(checker, named, &declared)?;
    let pending = keep_type_codes(checker, words, named, &how, t)?;
    keep_size(checker, named.at, &ty, init)?;
    let whole = sized(checker, &ty, init)?;
    let recorded = type_recorded(given, *t, whole);
    put_name(checker, words, &how, declared, &whole, &recorded)?;
    Ok(NameFound { ty: whole, pending })
}
