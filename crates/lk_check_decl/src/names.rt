//! The rules of a declared name besides `Code::Redeclared`: what may be given to it, where its type must be
//! complete, and `main` (C99 5.1.2.2.1, 6.7, 6.7.1, 6.7.8, 6.9.2).
ghost use Rattle.std.specs.Prelude.{◌≡◌, All, IfSome, map, if◌then◌else◌};
ghost use Rattle.std.specs.Option.{option_map};
ghost use Rattle.lk_types.specs.Table.{IsKnown};
ghost use Rattle.lk_typed.specs.DeclarationRules as spec;
ghost use Rattle.lk_typed.specs.Env.{Env};
ghost use Rattle.lk_typed.specs.Meaning.{meaning, IsReady};
ghost use Rattle.lk_typed.specs.Names.{is_static, meaning_in, IsKnownMeaning};
ghost use Rattle.lk_typed.specs.Ty.{Pointer, Function, char, int, is_array, is_function, is_same, types_of};
ghost use Rattle.lk_typed.specs.Typings.{structs_in};
ghost use Rattle.lk_check_decl.specs.Breaches.{told};
ghost use Rattle.lk_check_decl.specs.Names.{are_main_params, use_rules, object_rules, IsUsed, IsJudgedBy};
ghost use Rattle.lk_check_decl.specs.Twins.{scope_of, given_of};

use crate::breaches::unless;
use crate::storages::{has_extern, has_static, has_typedef};
use crate::words::{Given, Scope};
use lk_base::{Code, Name};
use lk_tree::Storage;
use lk_typed::{
    Duration, ExprType, Linkage, Meaning, Members, are_same, form, is_complete, is_function, lesser,
};
use lk_types::{CType, TypeId, TypeTable};

/// How a name is declared.
#[derive(Clone, Copy)]
pub struct NameUse {
    /// The scope in which its declaration stands.
    pub scope: Scope,
    /// What the declaration gives it.
    pub given: Given,
    /// Its linkage, as `linkage_of` tells it.
    pub linkage: Linkage,
    /// Its type.
    pub ty: TypeId,
}

/// Whether a type is that of an array.
fn is_array_type(types: &TypeTable, t: TypeId) -> bool
    requires { IsKnown types.now t }
    ensures { result ≡ is_array (meaning types.now t) }
{
    matches!(form(types, t), CType::Array(_, _))
}

/// Whether what gives a name its value may stand there: no initialiser on a typedef, on a function, or on an
/// `extern` in a block (C99 6.7.8, 3 and 5).
fn may_be_given(types: &TypeTable, words: &[Storage], name: &NameUse) -> bool
    requires { IsKnown types.now name.now.ty }
    ensures { result ≡ spec.may_be_given (scope_of name.now.scope) words.now
        (meaning types.now name.now.ty) (given_of name.now.given) }
{
    match name.given {
        Given::Nothing | Given::Body => true,
        Given::Initialiser => {
            let is_value = !(has_typedef(words) || is_function(types, &ExprType::Listed(name.ty)));
            match name.scope {
                Scope::File => is_value,
                Scope::Block => is_value && !has_extern(words),
            }
        }
    }
}

/// Whether `static` may stand there: not on a function in a block (C99 6.7.1, 5).
fn may_be_static(types: &TypeTable, words: &[Storage], name: &NameUse) -> bool
    requires { IsKnown types.now name.now.ty }
    ensures { result ≡ spec.may_be_static (scope_of name.now.scope) words.now
        (meaning types.now name.now.ty) }
{
    match name.scope {
        Scope::File => true,
        Scope::Block => !(has_static(words) && is_function(types, &ExprType::Listed(name.ty))),
    }
}

/// Whether a type is `char **`.
#[tactic(auto, unfolding(lk_typed::specs::Ty::is_same))]
fn is_argument_list(types: &TypeTable, t: TypeId) -> bool
    requires ready { IsReady types.now }
    requires known { IsKnown types.now t }
    ensures { result ≡ is_same (meaning types.now t) (Pointer (Pointer char)) }
{
    match form(types, t) {
        CType::Pointer(target) => are_same(
            types,
            &ExprType::Listed(*target),
            &ExprType::PointerTo(TypeId::CHAR),
        ),
        CType::Void
        | CType::Int(_)
        | CType::ThreadId
        | CType::Mutex
        | CType::Cond
        | CType::Array(_, _)
        | CType::Struct(_)
        | CType::Function { .. }
        | CType::Opaque(_) => false,
    }
}

/// Whether a type is `int`.
fn is_int(types: &TypeTable, t: TypeId) -> bool
    requires ready { IsReady types.now }
    requires known { IsKnown types.now t }
    ensures { result ≡ is_same (meaning types.now t) int }
{
    are_same(types, &ExprType::Listed(t), &ExprType::Listed(TypeId::INT))
}

/// Whether parameters are those of `main`: none, or `int` and `char **`.
fn are_main_params(types: &TypeTable, params: &[TypeId]) -> bool
    requires ready { IsReady types.now }
    requires known { All (IsKnown types.now) params.now }
    ensures { result ≡ are_main_params (types_of (map (meaning types.now) params.now)) }
{
    match params {
        [] => true,
        [count, list] => is_int(types, *count) && is_argument_list(types, *list),
        _ => false,
    }
}

/// Whether a function with this result and these parameters has one of the two types of `main`.
fn is_main_signature(types: &TypeTable, returned: TypeId, params: &[TypeId], dots: bool) -> bool
    requires ready { IsReady types.now }
    requires returned { IsKnown types.now returned }
    requires params { All (IsKnown types.now) params.now }
    ensures { result ≡ spec.is_main_type
        (Function (meaning types.now returned) (types_of (map (meaning types.now) params.now)) dots) }
{
    let gives_int = is_int(types, returned);
    let takes_arguments = are_main_params(types, params);
    if dots {
        return false;
    }
    gives_int && takes_arguments
}

/// Whether a type is one of the two types of `main`.
#[tactic(auto, unfolding(lk_typed::specs::Ty::is_same))]
fn is_main_type(types: &TypeTable, t: TypeId) -> bool
    requires ready { IsReady types.now }
    requires known { IsKnown types.now t }
    ensures { result ≡ spec.is_main_type (meaning types.now t) }
{
    match form(types, t) {
        CType::Function {
            result: returned,
            params,
            dots,
        } => is_main_signature(types, *returned, params.list(), *dots),
        CType::Void
        | CType::Int(_)
        | CType::ThreadId
        | CType::Mutex
        | CType::Cond
        | CType::Pointer(_)
        | CType::Array(_, _)
        | CType::Struct(_)
        | CType::Opaque(_) => false,
    }
}

/// Whether a name with this linkage may have its type if it is `main`: where it is a function of external
/// linkage, it has one of its two types (C99 5.1.2.2.1, 1).
fn may_be_main(types: &TypeTable, name: &Name, linkage: Linkage, t: TypeId) -> bool
    requires ready { IsReady types.now }
    requires known { IsKnown types.now t }
    ensures { result ≡ spec.may_be_main name.now linkage (meaning types.now t) }
{
    match linkage {
        Linkage::External => {
            !(name.bytes() == b"main".as_slice() && is_function(types, &ExprType::Listed(t)))
                || is_main_type(types, t)
        }
        Linkage::Internal | Linkage::None => true,
    }
}

/// Whether an object wants a complete type where it is declared (C99 6.7, 7), with an initialiser
/// behind `extern` too (6.9.2, 1).
fn wants_type(types: &TypeTable, words: &[Storage], t: TypeId, given: Given) -> bool
    requires { IsKnown types.now t }
    ensures { result ≡ spec.wants_type words.now (meaning types.now t) (given_of given) }
{
    let is_object = !(has_typedef(words) || is_function(types, &ExprType::Listed(t)));
    match given {
        Given::Nothing => is_object && !has_extern(words),
        Given::Initialiser | Given::Body => is_object,
    }
}

/// Whether the type of an object may be completed as late as at the end of the source: a tentative definition
/// of external linkage may have a struct that is completed later (C99 6.9.2, 2 and 3). Else it is to be
/// complete where it is declared.
pub fn waits_for_end(scope: Scope, words: &[Storage], given: Given) -> bool
    ensures { (env at_end : Env) → spec.env_for env at_end (scope_of scope) words.now (given_of given)
        ≡ if result then at_end else env }
{
    match scope {
        Scope::File => matches!(given, Given::Nothing) && !has_static(words),
        Scope::Block => false,
    }
}

/// Whether the size of an array comes from an initialiser.
fn has_size_later(types: &TypeTable, name: &NameUse) -> bool
    requires { IsKnown types.now name.now.ty }
    ensures { result ≡ spec.has_size_later (meaning types.now name.now.ty) (given_of name.now.given) }
{
    match name.given {
        Given::Initialiser => is_array_type(types, name.ty),
        Given::Nothing | Given::Body => false,
    }
}

/// The code of what is declared: `Code::Mismatch` where an initialiser, `static` or the type of `main` can't
/// stand there.
pub fn use_code(
    types: &TypeTable,
    words: &[Storage],
    name: &Name,
    declared: &NameUse,
) -> Option<Code>
    requires ready { IsReady types.now }
    requires known { IsKnown types.now declared.now.ty }
    ensures { result ≡ told (use_rules (scope_of declared.now.scope) words.now name.now declared.now.linkage
        (meaning types.now declared.now.ty) (given_of declared.now.given)) }
{
    let may_stand = may_be_given(types, words, declared)
        && may_be_static(types, words, declared)
        && may_be_main(types, name, declared.linkage, declared.ty);
    unless(may_stand, Code::Mismatch)
}

/// The code of an object that is declared: `Code::Incomplete` where its type isn't complete, though its
/// storage is here. `structs` are those at the end of the source where `waits_for_end` says so, else those
/// where the name is declared.
pub fn object_code(
    types: &TypeTable,
    structs: &[Members],
    words: &[Storage],
    declared: &NameUse,
) -> Option<Code>
    requires { IsKnown types.now declared.now.ty }
    ensures { result ≡ told (object_rules (structs_in types.now structs.now) words.now
        (meaning types.now declared.now.ty) (given_of declared.now.given)) }
{
    let is_fit = !wants_type(types, words, declared.ty, declared.given)
        || has_size_later(types, declared)
        || is_complete(types, structs, declared.ty);
    unless(is_fit, Code::Incomplete)
}

/// The code of a declared name besides `Code::Redeclared`: the lesser of `use_code` and `object_code`.
/// `structs` are those of `object_code`.
pub fn named_code(
    types: &TypeTable,
    structs: &[Members],
    words: &[Storage],
    name: &Name,
    declared: &NameUse,
) -> Option<Code>
    requires ready { IsReady types.now }
    requires known { IsKnown types.now declared.now.ty }
    ensures { (env at_end : Env) →
        IsUsed env words.now name.now declared.now (meaning types.now declared.now.ty) →
        IsJudgedBy env at_end words.now declared.now (structs_in types.now structs.now) →
        result ≡ told (spec.named_rules env at_end (scope_of declared.now.scope) words.now name.now
        (meaning types.now declared.now.ty) (given_of declared.now.given)) }
{
    let by_use = use_code(types, words, name, declared);
    let by_type = object_code(types, structs, words, declared);
    lesser(by_use, by_type)
}

/// How long an object lasts (C99 6.2.4, 3).
fn duration_of(scope: Scope, words: &[Storage]) -> Duration
    ensures { is_static result ≡ spec.is_static_object (scope_of scope) words.now }
{
    match scope {
        Scope::File => Duration::Static,
        Scope::Block => {
            if has_static(words) || has_extern(words) {
                Duration::Static
            } else {
                Duration::Automatic
            }
        }
    }
}

/// What a declared name stands for, by its type: nothing that is known where that is missing.
pub fn meaning_of(types: &TypeTable, scope: Scope, words: &[Storage], t: Option<TypeId>) -> Meaning
    requires { IfSome t (IsKnown types.now) }
    ensures value { meaning_in types.now result
        ≡ spec.meaning_of (scope_of scope) words.now (option_map (meaning types.now) t) }
    ensures known { IsKnownMeaning types.now result }
{
    match t {
        Some(t) => {
            if has_typedef(words) {
                Meaning::Typedef(t)
            } else if is_function(types, &ExprType::Listed(t)) {
                Meaning::Function(t)
            } else {
                Meaning::Object(t, duration_of(scope, words))
            }
        }
        None => Meaning::Faulty,
    }
}
