//! When a name that is no tag may be declared again (C99 6.7, 3; 6.2.2; 6.9.2).
ghost use Rattle.std.specs.Prelude.{◌≡◌, ◌&&◌, ◌∷◌, [], ℕ, List, if◌then◌else◌, map, not};
ghost use Rattle.lk_base.specs.declared.code.Code.TheVariants.{Redeclared};
ghost use Rattle.lk_types.specs.Table.{Table, IsKnown};
ghost use Rattle.lk_typed.specs.Env.{Env, is_one_of};
ghost use Rattle.lk_typed.specs.Faults.{breach_of};
ghost use Rattle.lk_typed.specs.Meaning.{meaning};
ghost use Rattle.lk_typed.specs.Names.{declared_in, meaning_in, IsKnownName, IsKnownMeaning};
ghost use Rattle.lk_typed.specs.Redeclared as spec;
ghost use Rattle.lk_typed.specs.Ty as ty;
ghost use Rattle.lk_names.specs.InScope.{env_in, IsKnownScope};
ghost use Rattle.lk_names.specs.Again.{are_redeclarable_meanings, are_one_typedef, are_of_one_entity};
ghost use Rattle.lk_names.specs.Uses.{breaches_told};

use crate::names::Names;
use lk_base::{Code, Name};
use lk_typed::{Declared, Defines, ExprType, Linkage, Meaning, are_same};
use lk_types::{TypeId, TypeTable};

/// The types that are predeclared at file scope.
const LIBRARY_TYPES: [&str; 7] = [
    "pthread_t",
    "pthread_mutex_t",
    "pthread_cond_t",
    "size_t",
    "pthread_attr_t",
    "pthread_mutexattr_t",
    "pthread_condattr_t",
];

/// Whether a name is one of these words.
fn is_among(name: &Name, words: &[&str]) -> bool
    ensures { result ≡ is_one_of (map (λ word. word.now) words.now) name.now }
{
    for word in words {
        if word.as_bytes() == name.bytes() {
            return true;
        }
    }
    false
}

/// Whether it is the name of a type that is predeclared at file scope.
fn is_library_type(name: &Name) -> bool
    ensures { result ≡ is_one_of spec.library_types name.now }
{
    is_among(name, &LIBRARY_TYPES)
}

/// Whether both names reach beyond their scope, and equally far (C99 6.2.2, 2).
fn is_linked_alike(a: Linkage, b: Linkage) -> bool
    ensures { result ≡ spec.is_linked_alike a b }
{
    match (a, b) {
        (Linkage::External, Linkage::External) | (Linkage::Internal, Linkage::Internal) => true,
        (Linkage::External | Linkage::Internal | Linkage::None, _) => false,
    }
}

/// Whether it has a body or an initialiser.
fn is_whole(defines: Defines) -> bool
    ensures { result ≡ spec.is_whole defines }
{
    match defines {
        Defines::Nothing | Defines::Tentative => false,
        Defines::Whole => true,
    }
}

/// Whether two types are those that two declarations of one name may have (C99 6.2.7).
fn are_redeclarable(types: &TypeTable, t: TypeId, u: TypeId) -> bool
    requires t { IsKnown types.now t }
    requires u { IsKnown types.now u }
    ensures { result ≡ ty.is_redeclarable (meaning types.now t) (meaning types.now u) }
{
    types.is_table();
    types.are_redeclarable(t, u)
}

/// Whether two names stand for objects, or both for functions, of types that two
/// declarations of one name may have.
fn are_types_redeclarable(types: &TypeTable, old: Meaning, new: Meaning) -> bool
    requires old { IsKnownMeaning types.now old }
    requires new { IsKnownMeaning types.now new }
    ensures { result ≡ are_redeclarable_meanings (meaning_in types.now old) (meaning_in types.now new) }
{
    match old {
        Meaning::Object(t, _) => match new {
            Meaning::Object(u, _) => are_redeclarable(types, t, u),
            Meaning::Function(_)
            | Meaning::Typedef(_)
            | Meaning::Enumerator(_)
            | Meaning::InitialiserWord(_)
            | Meaning::Faulty => false,
        },
        Meaning::Function(t) => match new {
            Meaning::Function(u) => are_redeclarable(types, t, u),
            Meaning::Object(..)
            | Meaning::Typedef(_)
            | Meaning::Enumerator(_)
            | Meaning::InitialiserWord(_)
            | Meaning::Faulty => false,
        },
        Meaning::Typedef(_)
        | Meaning::Enumerator(_)
        | Meaning::InitialiserWord(_)
        | Meaning::Faulty => false,
    }
}

/// Whether both names stand for types, and for the same one.
fn are_same_typedefs(types: &TypeTable, old: Meaning, new: Meaning) -> bool
    requires old { IsKnownMeaning types.now old }
    requires new { IsKnownMeaning types.now new }
    ensures { result ≡ are_one_typedef (meaning_in types.now old) (meaning_in types.now new) }
{
    match old {
        Meaning::Typedef(t) => match new {
            Meaning::Typedef(u) => are_same(types, &ExprType::Listed(t), &ExprType::Listed(u)),
            Meaning::Object(..)
            | Meaning::Function(_)
            | Meaning::Enumerator(_)
            | Meaning::InitialiserWord(_)
            | Meaning::Faulty => false,
        },
        Meaning::Object(..)
        | Meaning::Function(_)
        | Meaning::Enumerator(_)
        | Meaning::InitialiserWord(_)
        | Meaning::Faulty => false,
    }
}

/// Whether a name's declaration is faulty.
fn is_faulty(meaning: Meaning) -> bool
    ensures { (table : Table) → result ≡ spec.is_faulty (meaning_in table meaning) }
{
    match meaning {
        Meaning::Faulty => true,
        Meaning::Object(..)
        | Meaning::Function(_)
        | Meaning::Typedef(_)
        | Meaning::Enumerator(_)
        | Meaning::InitialiserWord(_) => false,
    }
}

/// Whether a declaration that isn't faulty has a body or an initialiser.
fn is_given(declared: &Declared) -> bool
    ensures { (table : Table) → result ≡ spec.is_given (declared_in table declared.now) }
{
    is_whole(declared.defines) && !is_faulty(declared.meaning)
}

/// Whether a declaration gives a name a body or an initialiser.
pub(crate) fn gives_name(declared: &Declared, name: &Name) -> bool
    ensures { (table : Table) → result ≡ spec.gives_name name.now (declared_in table declared.now) }
{
    is_given(declared) && declared.name == *name
}

/// Whether two declarations of one entity may stand in one scope: they reach equally far, at most one has a
/// body or an initialiser, and their types are equal but for absent sizes of arrays.
fn are_of_one_entity(types: &TypeTable, old: &Declared, new: &Declared) -> bool
    requires old { IsKnownName types.now old.now }
    requires new { IsKnownName types.now new.now }
    ensures { result ≡ are_of_one_entity (declared_in types.now old.now) (declared_in types.now new.now) }
{
    is_linked_alike(old.linkage, new.linkage)
        && !(is_whole(old.defines) && is_whole(new.defines))
        && are_types_redeclarable(types, old.meaning, new.meaning)
}

/// Whether the later of two declarations of a name in one scope is admitted.
fn may_follow(types: &TypeTable, old: &Declared, new: &Declared) -> bool
    requires old { IsKnownName types.now old.now }
    requires new { IsKnownName types.now new.now }
    ensures { result ≡ spec.may_follow (declared_in types.now old.now) (declared_in types.now new.now) }
{
    is_faulty(old.meaning)
        || is_faulty(new.meaning)
        || are_of_one_entity(types, old, new)
        || (is_library_type(&new.name) && are_same_typedefs(types, old.meaning, new.meaning))
}

/// `Code::Redeclared`, unless a declaration may follow the latest one of its name and gives no second body or
/// initialiser.
fn unless_admitted(may_follow: bool, is_second: bool) -> Option<Code>
    ensures { (name : List ℕ) → breaches_told result name ≡
        (if may_follow && not is_second then [] else breach_of Redeclared name ∷ []) }
{
    if may_follow && !is_second {
        None
    } else {
        Some(Code::Redeclared)
    }
}

impl Names {
    /// Whether a declaration gives its name a second body or initialiser.
    fn is_second(&self, new: &Declared) -> bool
        ensures { (table : Table) (rest : Env) →
            result ≡ spec.is_second (env_in table rest self.now) (declared_in table new.now) }
    {
        is_given(new) && self.is_given_here(&new.name)
    }

    /// The code of a declaration of a name that is no tag: `Code::Redeclared` where one of its scope is there
    /// behind which it may not stand, or where it has a body or an initialiser, and an earlier one has, too.
    pub fn redeclaration_code(&self, types: &TypeTable, new: &Declared) -> Option<Code>
        requires scope { IsKnownScope types.now self.now }
        requires new { IsKnownName types.now new.now }
        ensures { (rest : Env) → breaches_told result new.now.name ≡
            spec.name_rules (env_in types.now rest self.now) (declared_in types.now new.now) }
    {
        match self.look_up_here(&new.name) {
            Some(old) => unless_admitted(may_follow(types, old, new), self.is_second(new)),
            None => None,
        }
    }
}
