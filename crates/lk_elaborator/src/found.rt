//! What the checker found at the nodes of expressions.
ghost use Rattle.std.specs.Prelude.{◌↔◌, ◌≡◌, IfOk, IsTrue, OnOk};
ghost use Rattle.lk_types.specs.Table.{IsKnown};
ghost use Rattle.lk_typed.specs.Calls.{library_called};
ghost use Rattle.lk_typed.specs.Elaborated as spec;
ghost use Rattle.lk_typed.specs.Expressions.{expression};
ghost use Rattle.lk_typed.specs.Typings.{IsOperand};
ghost use Rattle.lk_check_expr.specs.Functions.{row_of};
ghost use Rattle.lk_found.specs.Judging.{HasOperand};
ghost use Rattle.lk_elaborator.specs.Known.{HasConstant, HasNodeType, HasTyping, HasValue, IsFoundAt, IsNamedAt, OfEach};
ghost use Rattle.lk_elaborator.specs.Leading.{Grows};
ghost use Rattle.lk_elaborator.specs.Telling.{IsMeant};

use crate::elaborator::Elaborator;
use crate::type_numbers::{is_number, known, node_type};
use crate::unreached::nowhere;
use lk_base::NoMemory;
use lk_check_expr::LibraryFunction;
use lk_found::{Found, Meant};
use lk_typed::{Constant, ExprType, Typed, value};
use lk_types::{TypeId, TypeTable};

/// Whether it is what is known of an operand.
fn is_operand(types: &TypeTable, typing: &Typed) -> bool
    ensures { IsTrue result ↔ IsOperand types.now typing.now }
{
    match typing.ty {
        ExprType::Listed(t) => is_number(types, t),
        ExprType::PointerTo(t) => is_number(types, t) && !typing.is_place,
    }
}

/// What is known of the expression with a number. Each has a type where no fault holds.
pub fn typing_at(walk: &Elaborator, ordinal: u32) -> Result<Typed, NoMemory>
    ensures operand { IfOk result (IsOperand walk.now.types) }
    ensures typing { IfOk result (λ t. OfEach walk.now ordinal (λ p. HasTyping walk.now.types p t)) }
{
    let found = found_of(walk, ordinal)?;
    match found.typing {
        Some(typing) => Ok(typing),
        None => Err(nowhere()),
    }
}

/// Whether what is found of an expression is of the types of the source, as the checker keeps it.
fn is_of_source(types: &TypeTable, found: &Found) -> bool
    ensures { IsTrue result ↔ HasOperand types.now found.now }
{
    match &found.typing {
        Some(typing) => is_operand(types, typing),
        None => true,
    }
}

/// What was found of the expression with a number. Each was judged.
pub fn found_of(walk: &Elaborator, ordinal: u32) -> Result<Found, NoMemory>
    ensures operand { IfOk result (HasOperand walk.now.types) }
    ensures found { IfOk result (λ f. OfEach walk.now ordinal (λ p. IsFoundAt walk.now.types p f)) }
{
    match walk.records.found(ordinal) {
        Some(found) => {
            if is_of_source(walk.types.table(), &found) {
                Ok(found)
            } else {
                Err(nowhere())
            }
        }
        None => Err(nowhere()),
    }
}

/// What an expression of which this is known is as an integer constant expression.
fn constant_of(typing: &Typed) -> Constant
    ensures { result ≡ typing.now.constant }
{
    typing.constant
}

/// What the expression with a number is as an integer constant expression.
pub fn constant_at(walk: &Elaborator, ordinal: u32) -> Result<Constant, NoMemory>
    ensures { IfOk result (λ constant. OfEach walk.now ordinal (λ p. HasConstant p constant)) }
{
    match typing_at(walk, ordinal) {
        Ok(typing) => Ok(constant_of(&typing)),
        Err(NoMemory) => Err(NoMemory),
    }
}

/// The function of the library whose name the expression with a number is, perhaps in parentheses.
pub fn called_at(walk: &Elaborator, ordinal: u32) -> Result<Option<LibraryFunction>, NoMemory>
    ensures { IfOk result (λ known. OfEach walk.now ordinal (λ f.
        library_called (expression f.1 f.0).look.word ≡ row_of known)) }
{
    match found_of(walk, ordinal) {
        Ok(found) => Ok(found.look.called),
        Err(NoMemory) => Err(NoMemory),
    }
}

/// Whether a `sizeof` stands in the expression with a number.
pub fn holds_sizeof(walk: &Elaborator, ordinal: u32) -> Result<bool, NoMemory>
    ensures { IfOk result (λ holds. OfEach walk.now ordinal (λ p. spec.holds_sizeof p ≡ holds)) }
{
    match found_of(walk, ordinal) {
        Ok(found) => Ok(found.look.holds_sizeof),
        Err(NoMemory) => Err(NoMemory),
    }
}

/// What is known of the value of the expression with a number.
pub fn value_at(walk: &Elaborator, ordinal: u32) -> Result<Typed, NoMemory>
    ensures operand { IfOk result (IsOperand walk.now.types) }
    ensures value { IfOk result (λ v. OfEach walk.now ordinal (λ p. HasValue walk.now.types p v)) }
{
    let typing = typing_at(walk, ordinal)?;
    Ok(value(walk.types.table(), &typing))
}

/// What the name with a number stands for. Each was declared.
pub fn meant_at(walk: &Elaborator, ordinal: u32) -> Result<Meant, NoMemory>
    ensures { IfOk result (λ m. OfEach walk.now ordinal (λ p. IsMeant walk.now.types p m)) }
{
    match walk.records.meant(ordinal) {
        Some(meant) => Ok(meant),
        None => Err(nowhere()),
    }
}

/// The type that the type name with a number names. Each names one where no fault holds.
pub fn type_named_at(walk: &Elaborator, ordinal: u32) -> Result<TypeId, NoMemory>
    ensures known { IfOk result (IsKnown walk.now.types) }
    ensures named { IfOk result (λ t. IsNamedAt walk.now ordinal t) }
{
    match walk.records.type_named(ordinal) {
        Some(t) => known(walk.types.table(), t),
        None => Err(nowhere()),
    }
}

/// The type of the node of the expression with a number.
pub fn node_type_at(walk: &mut Elaborator, ordinal: u32) -> Result<TypeId, NoMemory>
    ensures means { IfOk result (λ t. OfEach walk.old ordinal (λ p. HasNodeType walk.new.types p t)) }
    ensures grows { OnOk result (Grows walk.old walk.new) }
{
    let typing = typing_at(walk, ordinal)?;
    let t = node_type(&mut walk.types, &typing.ty)?;
    Ok(t)
}
