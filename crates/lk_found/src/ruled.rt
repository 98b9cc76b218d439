//! What the rules of expressions say, from what was found of the parts (C99 6.5).
ghost use Rattle.std.specs.Prelude.{◌≡◌, All, Option, option_map};
ghost use Rattle.lk_types.specs.Table.{Table, IsKnown};
ghost use Rattle.lk_typed.specs.Addresses.{value as spec_value};
ghost use Rattle.lk_typed.specs.Assignments.{assign_rule, cast_rule};
ghost use Rattle.lk_typed.specs.Elements.{HasFewElements};
ghost use Rattle.lk_typed.specs.Meaning.{meaning, meaning_of, IsKnownType, IsReady};
ghost use Rattle.lk_typed.specs.Operators.{binary_rule, choice_rule, comma_rule};
ghost use Rattle.lk_typed.specs.Places.{arrow_rule, dot_rule, index_rule, prefix_rule, sizeof_rule, step_rule};
ghost use Rattle.lk_typed.specs.Ty.{Ty};
ghost use Rattle.lk_typed.specs.Typing as spec;
ghost use Rattle.lk_typed.specs.Typing.{Typing, with_one, with_two, with_type};
ghost use Rattle.lk_typed.specs.Typings.{HasKnownFields, IsOperand, IsTyping, structs_in};
ghost use Rattle.lk_found.specs.declared.addresses.Address.TheVariants.{NotAddress};
ghost use Rattle.lk_found.specs.Judging.{HasKnownType, HasOperand, IsPart, IsRuled};
ghost use Rattle.lk_found.specs.Findings.{IsFoundTyping};

use crate::addresses::{
    Address, binary as binary_address, cast as cast_address, member, moved,
    prefix as prefix_address, value_address,
};
use crate::found::{Found, TypeFound};
use lk_base::Name;
use lk_check_expr::{
    arrow, assign, binary, cast, choice, comma, dot, index, prefix, size_of, step,
};
use lk_tree::{AssignOperator, BinaryOperator, PrefixOperator};
use lk_typed::{ExprType, Members, Typed, Verdict, value};
use lk_types::{TypeId, TypeTable};

/// What the rule of a form says of an expression.
#[derive(Clone, Copy)]
pub struct Ruled {
    /// Its typing, or the code that is told.
    pub verdict: Verdict,
    /// Where it is, as an address constant.
    pub address: Address,
}

impl Ruled {
    /// Nothing: a part has no type.
    pub fn silent() -> Ruled
        ensures { (table : Table) → IsRuled table result spec.Silent }
    {
        Ruled {
            verdict: Verdict::Silent,
            address: Address::NotAddress,
        }
    }

    /// What is no address constant.
    pub fn plain(verdict: Verdict) -> Ruled
        ensures verdict { result.verdict ≡ verdict }
        ensures address { result.address ≡ NotAddress }
    {
        Ruled {
            verdict,
            address: Address::NotAddress,
        }
    }
}

/// The comma of two operands.
fn comma_of(types: &TypeTable, a: &Typed, b: &Typed) -> Ruled
    requires first { IsOperand types.now a.now }
    requires second { IsOperand types.now b.now }
    ensures { (x y : Typing) → IsTyping types.now a.now x → IsTyping types.now b.now y →
        IsRuled types.now result (comma_rule (spec_value x) (spec_value y)) }
{
    let first = value(types, a);
    let second = value(types, b);
    let verdict = comma(types, &first, &second);
    Ruled::plain(verdict)
}

/// The comma, where both operands have a type.
pub fn comma_ruled(types: &TypeTable, a: &Found, b: &Found) -> Ruled
    requires first { HasOperand types.now a.now }
    requires second { HasOperand types.now b.now }
    ensures { (x y : Option Typing) → IsFoundTyping types.now a.now x → IsFoundTyping types.now b.now y →
        IsRuled types.now result (with_two x y (λ a b. comma_rule (spec_value a) (spec_value b))) }
{
    match a.typing {
        Some(first) => match b.typing {
            Some(second) => comma_of(types, &first, &second),
            None => Ruled::silent(),
        },
        None => Ruled::silent(),
    }
}

/// An assignment to a place.
fn assign_of(
    types: &TypeTable,
    structs: &[Members],
    op: AssignOperator,
    a: &Typed,
    b: &Typed,
) -> Ruled
    requires ready { IsReady types.now }
    requires first { IsOperand types.now a.now }
    requires second { IsOperand types.now b.now }
    ensures { (x y : Typing) → IsTyping types.now a.now x → IsTyping types.now b.now y →
        IsRuled types.now result (assign_rule (structs_in types.now structs.now) op x y) }
{
    let verdict = assign(types, structs, op, a, b);
    Ruled::plain(verdict)
}

/// An assignment, where both sides have a type.
pub fn assign_ruled(
    types: &TypeTable,
    structs: &[Members],
    op: AssignOperator,
    a: &Found,
    b: &Found,
) -> Ruled
    requires ready { IsReady types.now }
    requires first { HasOperand types.now a.now }
    requires second { HasOperand types.now b.now }
    ensures { (x y : Option Typing) → IsFoundTyping types.now a.now x → IsFoundTyping types.now b.now y →
        IsRuled types.now result (with_two x y (assign_rule (structs_in types.now structs.now) op)) }
{
    match a.typing {
        Some(first) => match b.typing {
            Some(second) => assign_of(types, structs, op, &first, &second),
            None => Ruled::silent(),
        },
        None => Ruled::silent(),
    }
}

/// `?:` of three operands.
fn choice_of(types: &TypeTable, c: &Typed, a: &Typed, b: &Typed) -> Ruled
    requires ready { IsReady types.now }
    requires condition { IsOperand types.now c.now }
    requires first { IsOperand types.now a.now }
    requires second { IsOperand types.now b.now }
    ensures { (z x y : Typing) → IsTyping types.now c.now z → IsTyping types.now a.now x →
        IsTyping types.now b.now y →
        IsRuled types.now result (choice_rule (spec_value z) (spec_value x) (spec_value y)) }
{
    let condition = value(types, c);
    let first = value(types, a);
    let second = value(types, b);
    let verdict = choice(types, &condition, &first, &second);
    Ruled::plain(verdict)
}

/// `?:` with a condition that has a type, where both arms have one.
fn arms_ruled(types: &TypeTable, c: &Typed, a: &Found, b: &Found) -> Ruled
    requires ready { IsReady types.now }
    requires condition { IsOperand types.now c.now }
    requires first { HasOperand types.now a.now }
    requires second { HasOperand types.now b.now }
    ensures { (z : Typing) (x y : Option Typing) → IsTyping types.now c.now z →
        IsFoundTyping types.now a.now x → IsFoundTyping types.now b.now y →
        IsRuled types.now result
        (with_two x y (λ a b. choice_rule (spec_value z) (spec_value a) (spec_value b))) }
{
    match a.typing {
        Some(first) => match b.typing {
            Some(second) => choice_of(types, c, &first, &second),
            None => Ruled::silent(),
        },
        None => Ruled::silent(),
    }
}

/// `?:`, where its condition and both arms have a type.
pub fn choice_ruled(types: &TypeTable, c: &Found, a: &Found, b: &Found) -> Ruled
    requires ready { IsReady types.now }
    requires condition { HasOperand types.now c.now }
    requires first { HasOperand types.now a.now }
    requires second { HasOperand types.now b.now }
    ensures { (z x y : Option Typing) → IsFoundTyping types.now c.now z →
        IsFoundTyping types.now a.now x → IsFoundTyping types.now b.now y →
        IsRuled types.now result
        (with_one z (λ c. with_two x y (λ a b. choice_rule (spec_value c) (spec_value a) (spec_value b)))) }
{
    match c.typing {
        Some(condition) => arms_ruled(types, &condition, a, b),
        None => Ruled::silent(),
    }
}

/// An operator between two operands.
fn binary_of(
    types: &TypeTable,
    structs: &[Members],
    op: BinaryOperator,
    a: &Typed,
    at: Address,
    b: &Typed,
) -> Ruled
    requires ready { IsReady types.now }
    requires first { IsOperand types.now a.now }
    requires second { IsOperand types.now b.now }
    ensures { (x y : Typing) → IsPart types.now a.now at x → IsTyping types.now b.now y →
        IsRuled types.now result
        (binary_rule (structs_in types.now structs.now) op (spec_value x) (spec_value y)) }
{
    let first_at = value_address(types, a, at);
    let first = value(types, a);
    let second = value(types, b);
    let verdict = binary(types, structs, op, &first, &second);
    let address = binary_address(types, op, &first, first_at, &second);
    Ruled { verdict, address }
}

/// An operator between two operands, where both have a type.
pub fn binary_ruled(
    types: &TypeTable,
    structs: &[Members],
    op: BinaryOperator,
    a: &Found,
    b: &Found,
) -> Ruled
    requires ready { IsReady types.now }
    requires first { HasOperand types.now a.now }
    requires second { HasOperand types.now b.now }
    ensures { (x y : Option Typing) → IsFoundTyping types.now a.now x → IsFoundTyping types.now b.now y →
        IsRuled types.now result (with_two x y
        (λ a b. binary_rule (structs_in types.now structs.now) op (spec_value a) (spec_value b))) }
{
    match a.typing {
        Some(first) => match b.typing {
            Some(second) => binary_of(types, structs, op, &first, a.address, &second),
            None => Ruled::silent(),
        },
        None => Ruled::silent(),
    }
}

/// A cast of an operand.
fn cast_of(types: &TypeTable, target: TypeId, a: &Typed, at: Address) -> Ruled
    requires ready { IsReady types.now }
    requires target { IsKnown types.now target }
    requires operand { IsOperand types.now a.now }
    ensures { (x : Typing) → IsPart types.now a.now at x →
        IsRuled types.now result (cast_rule (meaning types.now target) x) }
{
    let verdict = cast(types, target, a);
    let operand_at = value_address(types, a, at);
    let operand = value(types, a);
    let address = cast_address(types, target, &operand, operand_at);
    Ruled { verdict, address }
}

/// A cast to a type, where the operand has one.
fn cast_to(types: &TypeTable, target: TypeId, a: &Found) -> Ruled
    requires ready { IsReady types.now }
    requires target { IsKnown types.now target }
    requires operand { HasOperand types.now a.now }
    ensures { (x : Option Typing) → IsFoundTyping types.now a.now x →
        IsRuled types.now result (with_one x (cast_rule (meaning types.now target))) }
{
    match a.typing {
        Some(operand) => cast_of(types, target, &operand, a.address),
        None => Ruled::silent(),
    }
}

/// A cast, where the type name gives a type and the operand has one.
pub fn cast_ruled(types: &TypeTable, target: &TypeFound, a: &Found) -> Ruled
    requires ready { IsReady types.now }
    requires target { HasKnownType types.now target.now }
    requires operand { HasOperand types.now a.now }
    ensures { (t : Option Ty) (x : Option Typing) → option_map (meaning types.now) target.now.ty ≡ t →
        IsFoundTyping types.now a.now x →
        IsRuled types.now result (with_type t (λ target. with_one x (cast_rule target))) }
{
    match target.ty {
        Some(target) => cast_to(types, target, a),
        None => Ruled::silent(),
    }
}

/// `++` or `--` of an operand.
fn step_of(types: &TypeTable, structs: &[Members], a: &Typed) -> Ruled
    requires { IsOperand types.now a.now }
    ensures { (x : Typing) → IsTyping types.now a.now x →
        IsRuled types.now result (step_rule (structs_in types.now structs.now) x) }
{
    let verdict = step(types, structs, a);
    Ruled::plain(verdict)
}

/// `++` or `--`, where the operand has a type.
pub fn step_ruled(types: &TypeTable, structs: &[Members], a: &Found) -> Ruled
    requires { HasOperand types.now a.now }
    ensures { (x : Option Typing) → IsFoundTyping types.now a.now x →
        IsRuled types.now result (with_one x (step_rule (structs_in types.now structs.now))) }
{
    match a.typing {
        Some(operand) => step_of(types, structs, &operand),
        None => Ruled::silent(),
    }
}

/// An operator before an operand.
fn prefix_of(types: &TypeTable, op: PrefixOperator, a: &Typed, at: Address) -> Ruled
    requires ready { IsReady types.now }
    requires operand { IsOperand types.now a.now }
    ensures { (x : Typing) → IsPart types.now a.now at x → IsRuled types.now result (prefix_rule op x) }
{
    let verdict = prefix(types, op, a);
    let address = prefix_address(types, op, a, at);
    Ruled { verdict, address }
}

/// An operator before its operand, where that has a type.
pub fn prefix_ruled(types: &TypeTable, op: PrefixOperator, a: &Found) -> Ruled
    requires ready { IsReady types.now }
    requires operand { HasOperand types.now a.now }
    ensures { (x : Option Typing) → IsFoundTyping types.now a.now x →
        IsRuled types.now result (with_one x (prefix_rule op)) }
{
    match a.typing {
        Some(operand) => prefix_of(types, op, &operand, a.address),
        None => Ruled::silent(),
    }
}

/// `sizeof` of an expression of this type, or of the type.
fn sizeof_of(types: &TypeTable, structs: &[Members], ty: &ExprType, in_size: bool) -> Ruled
    requires ready { IsReady types.now }
    requires few { HasFewElements types.now }
    requires known { IsKnownType types.now ty.now }
    ensures { IsRuled types.now result
        (sizeof_rule (structs_in types.now structs.now) in_size (meaning_of types.now ty.now)) }
{
    let verdict = size_of(types, structs, ty, in_size);
    Ruled::plain(verdict)
}

/// `sizeof` of an expression, where that has a type.
pub fn sizeof_expr_ruled(types: &TypeTable, structs: &[Members], a: &Found, in_size: bool) -> Ruled
    requires ready { IsReady types.now }
    requires few { HasFewElements types.now }
    requires operand { HasOperand types.now a.now }
    ensures { (x : Option Typing) → IsFoundTyping types.now a.now x → IsRuled types.now result
        (with_one x (λ e. sizeof_rule (structs_in types.now structs.now) in_size e.type)) }
{
    match a.typing {
        Some(operand) => sizeof_of(types, structs, &operand.ty, in_size),
        None => Ruled::silent(),
    }
}

/// `sizeof` of a type name, where that gives a type.
pub fn sizeof_type_ruled(
    types: &TypeTable,
    structs: &[Members],
    named: &TypeFound,
    in_size: bool,
) -> Ruled
    requires ready { IsReady types.now }
    requires few { HasFewElements types.now }
    requires known { HasKnownType types.now named.now }
    ensures { (t : Option Ty) → option_map (meaning types.now) named.now.ty ≡ t → IsRuled types.now result
        (with_type t (sizeof_rule (structs_in types.now structs.now) in_size)) }
{
    match named.ty {
        Some(t) => sizeof_of(types, structs, &ExprType::Listed(t), in_size),
        None => Ruled::silent(),
    }
}

/// An element of an array.
fn index_of(types: &TypeTable, structs: &[Members], a: &Typed, at: Address, i: &Typed) -> Ruled
    requires array { IsOperand types.now a.now }
    requires inner { IsOperand types.now i.now }
    ensures { (x y : Typing) → IsPart types.now a.now at x → IsTyping types.now i.now y →
        IsRuled types.now result (index_rule (structs_in types.now structs.now) (spec_value x) (spec_value y)) }
{
    let array_at = value_address(types, a, at);
    let array = value(types, a);
    let inner = value(types, i);
    let verdict = index(types, structs, &array, &inner);
    let address = moved(array_at, inner.constant);
    Ruled { verdict, address }
}

/// An element, where the array and the index have types.
pub fn index_ruled(types: &TypeTable, structs: &[Members], a: &Found, i: &Found) -> Ruled
    requires array { HasOperand types.now a.now }
    requires inner { HasOperand types.now i.now }
    ensures { (x y : Option Typing) → IsFoundTyping types.now a.now x → IsFoundTyping types.now i.now y →
        IsRuled types.now result (with_two x y
        (λ a i. index_rule (structs_in types.now structs.now) (spec_value a) (spec_value i))) }
{
    match a.typing {
        Some(array) => match i.typing {
            Some(inner) => index_of(types, structs, &array, a.address, &inner),
            None => Ruled::silent(),
        },
        None => Ruled::silent(),
    }
}

/// A member of a struct.
fn dot_of(types: &TypeTable, structs: &[Members], a: &Typed, at: Address, name: &Name) -> Ruled
    requires operand { IsOperand types.now a.now }
    requires members { All (HasKnownFields types.now) structs.now }
    ensures { (x : Typing) → IsPart types.now a.now at x →
        IsRuled types.now result (dot_rule (structs_in types.now structs.now) x name.now) }
{
    let verdict = dot(types, structs, a, name);
    let address = member(at);
    Ruled { verdict, address }
}

/// A member, where the struct has a type.
pub fn dot_ruled(types: &TypeTable, structs: &[Members], a: &Found, name: &Name) -> Ruled
    requires operand { HasOperand types.now a.now }
    requires members { All (HasKnownFields types.now) structs.now }
    ensures { (x : Option Typing) → IsFoundTyping types.now a.now x → IsRuled types.now result
        (with_one x (λ e. dot_rule (structs_in types.now structs.now) e name.now)) }
{
    match a.typing {
        Some(object) => dot_of(types, structs, &object, a.address, name),
        None => Ruled::silent(),
    }
}

/// A member of the struct that a pointer points to.
fn arrow_of(types: &TypeTable, structs: &[Members], a: &Typed, at: Address, name: &Name) -> Ruled
    requires operand { IsOperand types.now a.now }
    requires members { All (HasKnownFields types.now) structs.now }
    ensures { (x : Typing) → IsPart types.now a.now at x →
        IsRuled types.now result (arrow_rule (structs_in types.now structs.now) (spec_value x) name.now) }
{
    let pointer_at = value_address(types, a, at);
    let pointer = value(types, a);
    let verdict = arrow(types, structs, &pointer, name);
    let address = member(pointer_at);
    Ruled { verdict, address }
}

/// A member, where the pointer has a type.
pub fn arrow_ruled(types: &TypeTable, structs: &[Members], a: &Found, name: &Name) -> Ruled
    requires operand { HasOperand types.now a.now }
    requires members { All (HasKnownFields types.now) structs.now }
    ensures { (x : Option Typing) → IsFoundTyping types.now a.now x → IsRuled types.now result
        (with_one x (λ e. arrow_rule (structs_in types.now structs.now) (spec_value e) name.now)) }
{
    match a.typing {
        Some(pointer) => arrow_of(types, structs, &pointer, a.address, name),
        None => Ruled::silent(),
    }
}

/// Parentheses: what is in them.
pub fn paren_ruled(a: &Found) -> Ruled
    ensures { (table : Table) (x : Option Typing) → IsFoundTyping table a.now x →
        IsRuled table result (with_one x spec.Typed) }
{
    match a.typing {
        Some(typing) => Ruled {
            verdict: Verdict::Typed(typing),
            address: a.address,
        },
        None => Ruled::silent(),
    }
}
