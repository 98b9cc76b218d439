//! Declarations (C99 6.7).
ghost use Rattle.std.specs.Prelude.{◌≡◌, [], ◌++◌, ◌&&◌, ◌||◌, not, Some, IfOk, IfSome, OnOk};
ghost use Rattle.std.specs.Option.{option_map};
ghost use Rattle.lk_types.specs.Table.{Table, IsKnown};
ghost use Rattle.lk_typed.specs.DeclarationRules.{is_static_object};
ghost use Rattle.lk_typed.specs.Declarations.{given_by as spec_given_by, is_alone as spec_is_alone};
ghost use Rattle.lk_typed.specs.Meaning.{meaning};
ghost use Rattle.lk_typed.specs.NodeParts.{object_of};
ghost use Rattle.lk_check_decl.specs.Twins.{given_of, scope_of};
ghost use Rattle.lk_check_decl.specs.declared.words.Scope.TheVariants.{File};
ghost use Rattle.lk_checker.specs.Moves.{IsFurther};
ghost use Rattle.lk_checker.specs.States.{IsSound};
ghost use Rattle.lk_check_unit.specs.Bodies.{Grows, WalksDeclaration};
ghost use Rattle.lk_check_unit.specs.Declaring.{listed};
ghost use Rattle.lk_check_unit.specs.Initialising.{IsKnownTarget, object_for};
ghost use Rattle.lk_check_unit.specs.InitDeclarators.{DeclaresAll, DeclaresOne, FindsName, HidesCodes};
ghost use Rattle.lk_check_unit.specs.InitDeclarators.{WalksNode};

use crate::declared::{NameFound, declare_name, sized};
use crate::initialisers::initialiser;
use crate::pending::Pending;
use lk_base::{NoMemory, Seq};
use lk_check_decl::{Given, Holder, Scope, Target, has_extern, has_static, may_lack_size};
use lk_check_walk::{declarator, specifiers};
use lk_checker::Checker;
use lk_found::{Asked, At, Specified, declared_name};
use lk_tree::{Declare, Init, InitDeclarator, Storage};
use lk_types::TypeId;
use std::alloc::Global;

/// What gives a declared name its value.
fn given_by(init: &Option<Init>) -> Given
    ensures { given_of result ≡ spec_given_by init.now }
{
    match init {
        Some(_) => Given::Initialiser,
        None => Given::Nothing,
    }
}

/// Whether a declared object has static storage.
fn is_static(scope: Scope, words: &[Storage]) -> bool
    ensures { result ≡ is_static_object (scope_of scope) words.now }
{
    match scope {
        Scope::File => true,
        Scope::Block => has_static(words) || has_extern(words),
    }
}

/// The object that an initialiser of a declaration is for, where its type is known.
fn object(ty: Option<TypeId>, is_static: bool) -> Option<Target>
    ensures value { (table : Table) → object_for table result ≡
        object_of (option_map (meaning table) ty) is_static }
    ensures known { (table : Table) → IfSome ty (IsKnown table) → IsKnownTarget table result }
{
    match ty {
        Some(ty) => Some(Target {
            ty,
            is_inner: false,
            is_static,
        }),
        None => None,
    }
}

/// Whether an initialiser hides codes, of which it is known whether it has a type, and whether a fault stands
/// in it.
fn hidden(is_typed: bool, is_broken: bool) -> bool
    ensures { result ≡ (not is_typed && is_broken) }
{
    !is_typed && is_broken
}

/// An initialiser of a declaration: whether it has no type, and a fault stands in it.
fn outer_initialiser(
    checker: &mut Checker,
    target: &Option<Target>,
    init: &Init,
) -> Result<bool, NoMemory>
    requires sound { IsSound checker.old }
    requires target { IsKnownTarget checker.old.types target.now }
    ensures grows { OnOk result (Grows checker.old checker.new) }
    ensures hides { IfOk result (HidesCodes checker.old checker.new target.now (Some init.now)) }
{
    let before = checker.watch();
    let is_typed = initialiser(checker, target, init)?;
    let is_broken = checker.was_broken(before);
    Ok(hidden(is_typed, is_broken))
}

/// The same of a declarator that may have none.
fn initialised(
    checker: &mut Checker,
    target: &Option<Target>,
    init: &Option<Init>,
) -> Result<bool, NoMemory>
    requires sound { IsSound checker.old }
    requires target { IsKnownTarget checker.old.types target.now }
    ensures grows { OnOk result (Grows checker.old checker.new) }
    ensures hides { IfOk result (HidesCodes checker.old checker.new target.now init.now) }
{
    match init {
        Some(init) => outer_initialiser(checker, target, init),
        None => Ok(false),
    }
}

/// Declares the name of a declarator whose type is made: what is found of it.
fn name_of(
    checker: &mut Checker,
    scope: Scope,
    words: &[Storage],
    d: &InitDeclarator,
    t: &Option<TypeId>,
) -> Result<NameFound, NoMemory>
    requires sound { IsSound checker.old }
    requires known { IfSome t.now (IsKnown checker.old.types) }
    ensures further { OnOk result (IsFurther checker.old checker.new) }
    ensures known { IfOk result (λ found. IfSome found.ty (IsKnown checker.new.types)) }
    ensures waits { IfOk result (λ found. IfSome found.pending (λ q. (scope ≡
        File) × IsKnown checker.new.types q.ty)) }
    ensures finds { IfOk result (FindsName checker.old checker.new scope words.now d.now t.now) }
{
    match declared_name(&d.declarator) {
        Some(named) => declare_name(checker, scope, words, given_by(&d.init), &named, t, &d.init),
        None => {
            let ty = sized(checker, t, &d.init)?;
            Ok(NameFound { ty, pending: None })
        }
    }
}

/// Puts what is to be asked at the end of the source.
fn put_pending(out: &mut Seq<Pending>, pending: Option<Pending>) -> Result<(), NoMemory>
    ensures { OnOk result (out.new ≡ out.old ++ listed pending) }
{
    if let Some(pending) = pending {
        out.push(pending)?;
    }
    Ok(())
}

/// A declarator of a declaration, with its initialiser: whether that hides the codes of the specifiers.
fn init_declarator(
    checker: &mut Checker,
    scope: Scope,
    told: &Specified,
    d: &InitDeclarator,
    pending: &mut Seq<Pending>,
) -> Result<bool, NoMemory>
    requires sound { IsSound checker.old }
    requires known { IfSome told.now.ty (IsKnown checker.old.types) }
    ensures grows { OnOk result (Grows checker.old checker.new) }
    ensures walks { IfOk result
        (DeclaresOne checker.old checker.new scope told.now d.now pending.old pending.new) }
{
    let words = told.storages.as_slice();
    let asked = Asked {
        may_be_absent: may_lack_size(words, d.init.is_some()),
        in_size: false,
    };
    let found = declarator(checker, &d.declarator, told.ty, asked)?;
    let named = name_of(checker, scope, words, d, &found.ty)?;
    put_pending(pending, named.pending)?;
    let target = object(named.ty, is_static(scope, words));
    initialised(checker, &target, &d.init)
}

/// Whether one of two holds.
fn either(a: bool, b: bool) -> bool
    ensures { result ≡ (a || b) }
{
    a || b
}

/// The declarators of a declaration: whether one of their initialisers hides the codes of the specifiers.
fn init_declarators(
    checker: &mut Checker,
    scope: Scope,
    told: &Specified,
    list: &[InitDeclarator],
    pending: &mut Seq<Pending>,
) -> Result<bool, NoMemory>
    requires sound { IsSound checker.old }
    requires known { IfSome told.now.ty (IsKnown checker.old.types) }
    ensures grows { OnOk result (Grows checker.old checker.new) }
    ensures walks { IfOk result
        (DeclaresAll checker.old checker.new scope told.now list.now pending.old pending.new) }
{
    let mut is_hidden = false;
    for d in list {
        let hides = init_declarator(checker, scope, told, d, pending)?;
        is_hidden = either(is_hidden, hides);
    }
    Ok(is_hidden)
}

/// Whether specifiers are all of a declaration.
fn is_alone(declarators: &[InitDeclarator]) -> bool
    ensures { result ≡ spec_is_alone declarators.now }
{
    declarators.is_empty()
}

/// A declaration.
pub(crate) fn declaration(
    checker: &mut Checker,
    scope: Scope,
    node: &Declare,
    pending: &mut Seq<Pending>,
) -> Result<(), NoMemory>
    requires sound { IsSound checker.old }
    ensures grows { OnOk result (Grows checker.old checker.new) }
    ensures walks { OnOk result (WalksNode checker.old checker.new scope node.now pending.old pending.new) }
{
    let declarators = node.declarators.list();
    let told = specifiers(
        checker,
        node.specifiers.list(),
        Holder::Declaration,
        is_alone(declarators),
        false,
    )?;
    let is_hidden = init_declarators(checker, scope, &told, declarators, pending)?;
    if is_hidden {
        return Ok(());
    }
    let at = At {
        spot: node.spot,
        ordinal: node.ordinal,
    };
    checker.keep_all(at, told.breaches.as_slice())
}

/// No tentative definition.
pub(crate) fn nothing_pending(alloc: Global) -> Seq<Pending>
    ensures { result ≡ [] }
{
    Seq::new(Vec::new(alloc))
}

/// A declaration in a block.
pub(crate) fn declaration_in_block(checker: &mut Checker, node: &Declare) -> Result<(), NoMemory>
    requires { IsSound checker.old }
    ensures grows { OnOk result (Grows checker.old checker.new) }
    ensures walks { OnOk result (WalksDeclaration node.now checker.old checker.new) }
{
    let mut pending = nothing_pending(checker.alloc);
    declaration(checker, Scope::Block, node, &mut pending)
}
