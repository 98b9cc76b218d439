//! The operators before and behind an operand (C99 6.5.2.1, 6.5.2.4, 6.5.3).
ghost use Rattle.std.specs.Prelude.{◌≡◌, IfSome};
ghost use Rattle.std.specs.Option.{option_map};
ghost use Rattle.lk_types.specs.Table.{Table, IsKnown};
ghost use Rattle.lk_typed.specs.Places as spec;
ghost use Rattle.lk_typed.specs.Typing.{Typing};
ghost use Rattle.lk_typed.specs.Meaning.{meaning, meaning_of, IsKnownType, IsReady};
ghost use Rattle.lk_typed.specs.Typings.{ForBoth, ForEach, IsOperand, IsResult, IsTyping, IsVerdict, structs_in};

use crate::constants::unary_constant;
use crate::operators::{condition_code, integer_code, is_steppable, pointer_code, steppable_code};
use lk_arith::{UnaryOp, promoted};
use lk_base::{Code, Kind};
use lk_tree::PrefixOperator;
use lk_typed::{
    Constant, ExprType, Members, Typed, Verdict, by_row, code_if, is_function, is_integer, is_lock,
    is_void, kind_of, lesser, operand_code, target_of, unless, value,
};
use lk_types::{TypeId, TypeTable};

/// Whether it is a place or a function.
fn is_addressable(types: &TypeTable, e: &Typed) -> bool
    requires { IsOperand types.now e.now }
    ensures { ForEach types.now e.now (λ x. result ≡ spec.is_addressable x) }
{
    e.is_place || is_function(types, &e.ty)
}

/// `&` takes a place or a function. A place is of a type of the table.
fn address(types: &TypeTable, e: &Typed) -> Verdict
    requires { IsOperand types.now e.now }
    ensures { ForEach types.now e.now (λ x. IsVerdict types.now result (spec.address_rule x)) }
{
    match e.ty {
        ExprType::Listed(t) => {
            let taken = is_addressable(types, e);
            let code = code_if(!taken, Code::NotAPlace);
            let typed = Typed::of_type(ExprType::PointerTo(t));
            unless(code, typed)
        }
        ExprType::PointerTo(_) => Verdict::Broken(Code::NotAPlace),
    }
}

/// What `*` gives of a pointer to this type: a function, or a place of any type but `void`.
fn pointed(types: &TypeTable, target: TypeId) -> Option<Typed>
    requires { IsKnown types.now target }
    ensures { (x : Typing) → IsResult types.now result (spec.pointed x (meaning types.now target)) }
{
    if is_void(types, &ExprType::Listed(target)) {
        None
    } else {
        Some(Typed {
            ty: ExprType::Listed(target),
            is_place: !is_function(types, &ExprType::Listed(target)),
            constant: Constant::NotConstant,
            is_null: false,
        })
    }
}

/// What `*` gives, where its operand is a pointer.
fn indirect(types: &TypeTable, target: Option<TypeId>) -> Option<Typed>
    requires { IfSome target (IsKnown types.now) }
    ensures { (x : Typing) → IsResult types.now result
        (spec.indirect x (option_map (meaning types.now) target)) }
{
    match target {
        Some(target) => pointed(types, target),
        None => None,
    }
}

/// `*` of a value.
fn indirection(types: &TypeTable, e: &Typed) -> Verdict
    requires { IsOperand types.now e.now }
    ensures { ForEach types.now e.now (λ x. IsVerdict types.now result (spec.indirection_rule x)) }
{
    let code = pointer_code(types, &e.ty);
    let target = target_of(types, &e.ty);
    let row = indirect(types, target);
    by_row(code, row)
}

/// What an operator gives of an integer of this kind, after the promotions.
fn at_promoted_kind(op: UnaryOp, e: &Typed, kind: Option<Kind>) -> Option<Typed>
    ensures { (table : Table) → IsReady table → ForEach table e.now (λ x.
        IsResult table result (spec.at_promoted_kind op x kind)) }
{
    match kind {
        Some(kind) => {
            let kind = promoted(kind);
            Some(Typed::integer(op.result_kind(kind), unary_constant(op, kind, e.constant)))
        }
        None => None,
    }
}

/// `+`, `-` or `~` of a value.
fn arithmetic(types: &TypeTable, op: UnaryOp, e: &Typed) -> Verdict
    requires ready { IsReady types.now }
    requires operand { IsOperand types.now e.now }
    ensures { ForEach types.now e.now (λ x. IsVerdict types.now result (spec.arithmetic_rule op x)) }
{
    let code = integer_code(types, &e.ty);
    let kind = kind_of(types, &e.ty);
    let row = at_promoted_kind(op, e, kind);
    by_row(code, row)
}

/// What `!` gives of a value that may be a condition: of a pointer it is no constant.
fn not_of(e: &Typed, kind: Option<Kind>) -> Typed
    ensures { (table : Table) → IsReady table → ForEach table e.now (λ x.
        IsTyping table result (spec.not_of x kind)) }
{
    match kind {
        Some(kind) => {
            let constant = unary_constant(UnaryOp::Not, promoted(kind), e.constant);
            Typed::integer(Kind::Int, constant)
        }
        None => Typed::integer(Kind::Int, Constant::NotConstant),
    }
}

/// `!` of a value.
fn negation(types: &TypeTable, e: &Typed) -> Verdict
    requires ready { IsReady types.now }
    requires operand { IsOperand types.now e.now }
    ensures { ForEach types.now e.now (λ x. IsVerdict types.now result (spec.not_rule x)) }
{
    let code = condition_code(types, &e.ty);
    let kind = kind_of(types, &e.ty);
    let typed = not_of(e, kind);
    unless(code, typed)
}

/// What an operator takes of its operand: `&` the operand as it is, the others its value.
fn operand_of(types: &TypeTable, op: PrefixOperator, e: &Typed) -> Typed
    requires { IsOperand types.now e.now }
    ensures operand { IsOperand types.now result }
    ensures value { ForEach types.now e.now (λ x. IsTyping types.now result (spec.operand_of op x)) }
{
    match op {
        PrefixOperator::Address => *e,
        PrefixOperator::Indirection
        | PrefixOperator::Plus
        | PrefixOperator::Minus
        | PrefixOperator::Complement
        | PrefixOperator::Not => value(types, e),
    }
}

/// The rule of an operator, of what it takes.
fn rule_of(types: &TypeTable, op: PrefixOperator, e: &Typed) -> Verdict
    requires ready { IsReady types.now }
    requires operand { IsOperand types.now e.now }
    ensures { ForEach types.now e.now (λ x. IsVerdict types.now result (spec.rule_of op x)) }
{
    match op {
        PrefixOperator::Address => address(types, e),
        PrefixOperator::Indirection => indirection(types, e),
        PrefixOperator::Plus => arithmetic(types, UnaryOp::Plus, e),
        PrefixOperator::Minus => arithmetic(types, UnaryOp::Negate, e),
        PrefixOperator::Complement => arithmetic(types, UnaryOp::Complement, e),
        PrefixOperator::Not => negation(types, e),
    }
}

/// An operator before its operand: its typing, or the least code that holds.
pub fn prefix(types: &TypeTable, op: PrefixOperator, e: &Typed) -> Verdict
    requires ready { IsReady types.now }
    requires operand { IsOperand types.now e.now }
    ensures { ForEach types.now e.now (λ x. IsVerdict types.now result (spec.prefix_rule op x)) }
{
    let operand = operand_of(types, op, e);
    rule_of(types, op, &operand)
}

/// What an element is: a place.
fn element(target: Option<TypeId>) -> Option<Typed>
    ensures { (table : Table) (x y : Typing) → IfSome target (IsKnown table) →
        IsResult table result (spec.element_of x y (option_map (meaning table) target)) }
{
    match target {
        Some(target) => Some(Typed {
            ty: ExprType::Listed(target),
            is_place: true,
            constant: Constant::NotConstant,
            is_null: false,
        }),
        None => None,
    }
}

/// `e[i]` of two values: a pointer to a complete object type on the left, an integer inside.
pub fn index(types: &TypeTable, structs: &[Members], e: &Typed, i: &Typed) -> Verdict
    requires left { IsOperand types.now e.now }
    requires inner { IsOperand types.now i.now }
    ensures { ForBoth types.now e.now i.now (λ x y.
        IsVerdict types.now result (spec.index_rule (structs_in types.now structs.now) x y)) }
{
    let left = steppable_code(types, structs, &e.ty);
    let inner = integer_code(types, &i.ty);
    let code = lesser(left, inner);
    let target = target_of(types, &e.ty);
    let row = element(target);
    by_row(code, row)
}

/// Whether it is a type that `++` and `--` count: an integer, or a pointer to a complete object type.
fn is_counted(types: &TypeTable, structs: &[Members], ty: &ExprType) -> bool
    requires { IsKnownType types.now ty.now }
    ensures { result ≡ spec.is_counted (structs_in types.now structs.now) (meaning_of types.now ty.now) }
{
    is_integer(types, ty) || is_steppable(types, structs, ty)
}

/// `++` or `--`, on either side, of a place that holds an integer or a pointer to a complete object type.
pub fn step(types: &TypeTable, structs: &[Members], e: &Typed) -> Verdict
    requires { IsOperand types.now e.now }
    ensures { ForEach types.now e.now (λ x.
        IsVerdict types.now result (spec.step_rule (structs_in types.now structs.now) x)) }
{
    let place = code_if(!e.is_place, Code::NotAPlace);
    let lock = is_lock(types, &e.ty);
    let counted = is_counted(types, structs, &e.ty);
    let counted_code = operand_code(lock, counted);
    let code = lesser(place, counted_code);
    let typed = Typed::of_type(e.ty);
    unless(code, typed)
}
