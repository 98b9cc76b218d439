//! Definitions of functions (C99 6.9.1).
ghost use Rattle.std.specs.Prelude.{◌≡◌, Some, length, IfOk, IfSome, OnOk};
ghost use Rattle.std.specs.Option.{option_map};
ghost use Rattle.lk_types.specs.Table.{IsKnown};
ghost use Rattle.lk_names.specs.Growing.{IsKnownLeft};
ghost use Rattle.lk_typed.specs.DeclarationRules.{definition_rules};
ghost use Rattle.lk_typed.specs.Labels.{labels};
ghost use Rattle.lk_typed.specs.Meaning.{meaning};
ghost use Rattle.lk_typed.specs.NodeParts as spec;
ghost use Rattle.lk_typed.specs.StatementRules.{in_function};
ghost use Rattle.lk_found.specs.Named.{name_in};
ghost use Rattle.lk_checker.specs.Moves.{IsSame, KeepsAt, IsFurther};
ghost use Rattle.lk_checker.specs.States.{IsSound};
ghost use Rattle.lk_check_unit.specs.Bodies.{Grows, IsAround};
ghost use Rattle.lk_check_unit.specs.Definitions.{DeclaresParameters, DefinesName, EntersBody, Heads};
ghost use Rattle.lk_check_unit.specs.Definitions.{IsKnownHeaded, NamesFunction, WalksBody, WalksDefinition};

use crate::body::Body;
use crate::declared::declare_name;
use crate::scopes::{enter, leave};
use crate::statements::block_items;
use lk_base::NoMemory;
use lk_check_decl::{Given, Holder, Scope, definition_code};
use lk_check_walk::{declarator, specifiers};
use lk_checker::Checker;
use lk_found::{Asked, At, DeclaratorFound, DeclaredName, declared_name};
use lk_labels::{items_of, labels_of};
use lk_names::{LeftScope, Mark};
use lk_tree::{Declarator, Function, Init, Stmt, Storage};
use lk_typed::form;
use lk_types::{CType, TypeId, TypeTable};
use std::alloc::Global;

/// What is found of the head of a definition: its specifiers, and its declarator.
#[derive(Drop)]
pub(crate) struct Headed {
    /// The result of the function, where its type is known.
    returned: Option<TypeId>,
    /// What the parameters declare.
    parameters: Option<LeftScope>,
}

/// What a type gives, where it is one of functions.
fn function_result(types: &TypeTable, t: TypeId) -> Option<TypeId>
    requires { IsKnown types.now t }
    ensures value { option_map (meaning types.now) result ≡ spec.result_of (Some (meaning types.now t)) }
    ensures known { IfSome result (IsKnown types.now) }
{
    match form(types, t) {
        CType::Function {
            result: returned,
            ..
        } => Some(*returned),
        CType::Void
        | CType::Int(_)
        | CType::ThreadId
        | CType::Mutex
        | CType::Cond
        | CType::Pointer(_)
        | CType::Array(_, _)
        | CType::Struct(_)
        | CType::Opaque(_) => None,
    }
}

/// The result of a function of this type, where that is known.
fn result_of(types: &TypeTable, t: &Option<TypeId>) -> Option<TypeId>
    requires { IfSome t.now (IsKnown types.now) }
    ensures value { option_map (meaning types.now) result ≡
        spec.result_of (option_map (meaning types.now) t.now) }
    ensures known { IfSome result (IsKnown types.now) }
{
    match t {
        Some(t) => function_result(types, *t),
        None => None,
    }
}

/// Keeps `Code::OwnVararg` of a definition.
fn keep_dots(checker: &mut Checker, at: At, t: &Option<TypeId>) -> Result<(), NoMemory>
    requires { IfSome t.now (IsKnown checker.old.types) }
    ensures kept { OnOk result (KeepsAt checker.old checker.new at
        (definition_rules (option_map (meaning checker.old.types) t.now))) }
    ensures same { OnOk result (IsSame checker.old checker.new) }
{
    let code = definition_code(&checker.types, *t);
    checker.keep(at, code)
}

/// Declares this name of a function that is defined.
fn name_function(
    checker: &mut Checker,
    words: &[Storage],
    named: &DeclaredName<'_>,
    t: &Option<TypeId>,
) -> Result<(), NoMemory>
    requires sound { IsSound checker.old }
    requires known { IfSome t.now (IsKnown checker.old.types) }
    ensures further { OnOk result (IsFurther checker.old checker.new) }
    ensures names { OnOk result (DefinesName checker.old checker.new words.now (Some (name_in named.now))
        t.now) }
{
    let none: Option<Init> = None;
    match declare_name(checker, Scope::File, words, Given::Body, named, t, &none) {
        Ok(_) => Ok(()),
        Err(fault) => Err(fault),
    }
}

/// Declares the name of a function that is defined, behind its declarator.
fn name_of_definition(
    checker: &mut Checker,
    words: &[Storage],
    d: &Declarator,
    t: &Option<TypeId>,
) -> Result<(), NoMemory>
    requires sound { IsSound checker.old }
    requires known { IfSome t.now (IsKnown checker.old.types) }
    ensures further { OnOk result (IsFurther checker.old checker.new) }
    ensures names { OnOk result (NamesFunction checker.old checker.new words.now d.now t.now) }
{
    match declared_name(d) {
        Some(named) => name_function(checker, words, &named, t),
        None => Ok(()),
    }
}

/// Where a definition stands.
fn at_definition(node: &Function) -> At
    ensures spot { result.spot ≡ node.now.spot }
    ensures ordinal { result.ordinal ≡ node.now.ordinal }
{
    At {
        spot: node.spot,
        ordinal: node.ordinal,
    }
}

/// The head of a definition: the codes of the definition are kept, and its name is declared.
fn head(checker: &mut Checker, node: &Function) -> Result<Headed, NoMemory>
    requires sound { IsSound checker.old }
    ensures further { OnOk result (IsFurther checker.old checker.new) }
    ensures known { IfOk result (IsKnownHeaded checker.new) }
    ensures heads { IfOk result (Heads node.now checker.old checker.new) }
{
    let at = at_definition(node);
    let told = specifiers(
        checker,
        node.specifiers.list(),
        Holder::Definition,
        false,
        false,
    )?;
    checker.keep_all(at, told.breaches.as_slice())?;
    let asked = Asked {
        may_be_absent: false,
        in_size: false,
    };
    let DeclaratorFound { ty, parameters, .. } = declarator(
        checker,
        &node.declarator,
        told.ty,
        asked,
    )?;
    keep_dots(checker, at, &ty)?;
    name_of_definition(checker, told.storages.as_slice(), &node.declarator, &ty)?;
    let returned = result_of(&checker.types, &ty);
    Ok(Headed {
        returned,
        parameters,
    })
}

/// What stands round the items of a body, in a function with this result.
fn around(alloc: Global, s: &Stmt, returned: Option<TypeId>) -> Result<Body, NoMemory>
    ensures around { IfOk result (λ body. IsAround body (in_function (labels s.now))) }
    ensures returned { IfOk result (λ body. body.returned ≡ returned) }
{
    let labels = labels_of(alloc, s)?;
    Ok(Body {
        labels,
        returned,
        switch: None,
        in_loop: false,
    })
}

/// Declares the parameters, where there are some, in the innermost scope.
fn declare_parameters(checker: &mut Checker, parameters: Option<LeftScope>) -> Result<(), NoMemory>
    requires { IfSome parameters (IsKnownLeft checker.old.types (length checker.old.names.structs)) }
    ensures { OnOk result (DeclaresParameters checker.old checker.new parameters) }
{
    match parameters {
        Some(scope) => checker.names.declare_again(scope),
        None => Ok(()),
    }
}

/// Begins the scope of a body, in which the parameters stand.
fn enter_body(checker: &mut Checker, parameters: Option<LeftScope>) -> Result<Mark, NoMemory>
    requires { IfSome parameters (IsKnownLeft checker.old.types (length checker.old.names.structs)) }
    ensures { IfOk result (EntersBody checker.old checker.new parameters) }
{
    let mark = enter(checker);
    declare_parameters(checker, parameters)?;
    Ok(mark)
}

/// The body of a definition, by what is found of its head.
fn body(checker: &mut Checker, s: &Stmt, headed: Headed) -> Result<(), NoMemory>
    requires sound { IsSound checker.old }
    requires known { IsKnownHeaded checker.old headed }
    ensures grows { OnOk result (Grows checker.old checker.new) }
    ensures walks { OnOk result (WalksBody s.now checker.old checker.new headed) }
{
    let Headed {
        returned,
        parameters,
    } = headed;
    let mut body = around(checker.alloc, s, returned)?;
    let mark = enter_body(checker, parameters)?;
    block_items(checker, items_of(s), &mut body)?;
    leave(checker, mark);
    Ok(())
}

/// A definition of a function.
pub(crate) fn definition(checker: &mut Checker, node: &Function) -> Result<(), NoMemory>
    requires { IsSound checker.old }
    ensures grows { OnOk result (Grows checker.old checker.new) }
    ensures walks { OnOk result (WalksDefinition node.now checker.old checker.new) }
{
    let headed = head(checker, node)?;
    body(checker, &node.body, headed)
}
