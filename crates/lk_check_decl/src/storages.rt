//! Storage classes, and what they make of a declared name (C99 6.2.2, 6.2.4, 6.7.1).
ghost use Rattle.std.specs.Prelude.{◌≡◌, Option, is_some};
ghost use Rattle.std.specs.Option.{option_map};
ghost use Rattle.lk_tree.specs.declared.declaration.Init.{Init};
ghost use Rattle.lk_typed.specs.DeclarationRules as spec;
ghost use Rattle.lk_typed.specs.Declarations.{may_lack_size};
ghost use Rattle.lk_typed.specs.Env.{Env, Name, look_up};
ghost use Rattle.lk_typed.specs.Told.{SpecifierTold, named_type};
ghost use Rattle.lk_check_decl.specs.Breaches.{told};
ghost use Rattle.lk_check_decl.specs.Twins.{holder_of, scope_of, given_of};

use crate::words::{Given, Holder, Scope};
use lk_base::Code;
use lk_tree::Storage;
use lk_typed::{Defines, Linkage};

/// Whether it is `typedef`, `extern` or `static`.
fn is_linking(word: Storage) -> bool
    ensures { result ≡ spec.is_linking word }
{
    match word {
        Storage::Typedef | Storage::Extern | Storage::Static => true,
        Storage::Auto | Storage::Register => false,
    }
}

/// How many of the words are `typedef`, `extern` or `static`.
fn linking_count(words: &[Storage]) -> usize
    ensures { result ≡ spec.count_of spec.is_linking words.now }
{
    let mut count = 0;
    for word in words {
        if is_linking(*word) {
            count += 1;
        }
    }
    count
}

/// Whether `typedef` is among the words.
pub fn has_typedef(words: &[Storage]) -> bool
    ensures { result ≡ spec.has spec.is_typedef words.now }
{
    for word in words {
        if matches!(word, Storage::Typedef) {
            return true;
        }
    }
    false
}

/// Whether `extern` is among the words.
pub fn has_extern(words: &[Storage]) -> bool
    ensures { result ≡ spec.has spec.is_extern words.now }
{
    for word in words {
        if matches!(word, Storage::Extern) {
            return true;
        }
    }
    false
}

/// Whether `static` is among the words.
pub fn has_static(words: &[Storage]) -> bool
    ensures { result ≡ spec.has spec.is_static words.now }
{
    for word in words {
        if matches!(word, Storage::Static) {
            return true;
        }
    }
    false
}

/// Whether these storage classes may stand there: one of `typedef`, `extern` and `static` at most
/// (C99 6.7.1, 2), none in a type (6.7.2.1, 6.7.5.3, 2; 6.7.6), and no `typedef` on a definition (6.9.1, 4).
pub fn may_have(holder: Holder, words: &[Storage]) -> bool
    ensures { result ≡ spec.may_have (holder_of holder) words.now }
{
    match holder {
        Holder::Declaration => linking_count(words) <= 1,
        Holder::Definition => linking_count(words) <= 1 && !has_typedef(words),
        Holder::Type => linking_count(words) == 0,
    }
}

/// The code of specifiers: `Code::Mismatch` where their words and types together name no type (C99 6.7.2, 2),
/// or where a storage class can't stand there.
pub fn specifier_code(holder: Holder, words: &[Storage], names_type: bool) -> Option<Code>
    ensures { (found : SpecifierTold) → found.storages ≡ words.now →
        is_some (named_type found.words found.types) ≡ names_type →
        result ≡ told (spec.specifier_rules (holder_of holder) found) }
{
    if names_type && may_have(holder, words) {
        None
    } else {
        Some(Code::Mismatch)
    }
}

/// The linkage that `extern` gives, by that of the declaration in scope (C99 6.2.2, 4).
fn linkage_before(before: Option<Linkage>) -> Linkage
    ensures { (env : Env) (name : Name) → option_map (λ d. d.linkage) (look_up env name) ≡ before →
        result ≡ spec.linkage_of_meant (look_up env name) }
{
    match before {
        Some(Linkage::Internal) => Linkage::Internal,
        Some(Linkage::External | Linkage::None) | None => Linkage::External,
    }
}

/// The linkage of a name that is declared without `typedef` and `extern` (C99 6.2.2, 3, 5 and 6).
fn own_linkage(scope: Scope, is_static: bool, is_function: bool, before: Option<Linkage>) -> Linkage
    ensures { (env : Env) (name : Name) → option_map (λ d. d.linkage) (look_up env name) ≡ before →
        result ≡ spec.file_linkage env (scope_of scope) is_static is_function name }
{
    match scope {
        Scope::File => {
            if is_static {
                Linkage::Internal
            } else if is_function {
                linkage_before(before)
            } else {
                Linkage::External
            }
        }
        Scope::Block => {
            if is_function {
                linkage_before(before)
            } else {
                Linkage::None
            }
        }
    }
}

/// The linkage of a declared name (C99 6.2.2, 3 to 6). `before` is that of the
/// declaration of the name in scope.
pub fn linkage_of(
    scope: Scope,
    words: &[Storage],
    is_function: bool,
    before: Option<Linkage>,
) -> Linkage
    ensures { (env : Env) (name : Name) → option_map (λ d. d.linkage) (look_up env name) ≡ before →
        result ≡ spec.linkage_of env (scope_of scope) words.now is_function name }
{
    if has_typedef(words) {
        Linkage::None
    } else if has_extern(words) {
        linkage_before(before)
    } else {
        own_linkage(scope, has_static(words), is_function, before)
    }
}

/// What a declaration defines (C99 6.9.1, 6.9.2).
pub fn defines_of(words: &[Storage], is_function: bool, given: Given) -> Defines
    ensures { (scope : spec.Scope) → result ≡ spec.defines_of scope words.now is_function (given_of given) }
{
    match given {
        Given::Nothing => {
            if is_function || has_extern(words) || has_typedef(words) {
                Defines::Nothing
            } else {
                Defines::Tentative
            }
        }
        Given::Initialiser | Given::Body => Defines::Whole,
    }
}

/// Whether `[]` may stand in a declarator: behind `extern`, or where an initialiser gives the
/// size (C99 6.7.5.2, 6.7.8, 22).
pub fn may_lack_size(words: &[Storage], has_initialiser: bool) -> bool
    ensures { (init : Option Init) → is_some init ≡ has_initialiser → result ≡ may_lack_size words.now init }
{
    has_initialiser || has_extern(words)
}
