//! Members of structs by their names (C99 6.5.2.3).
ghost use Rattle.std.specs.Prelude.{◌≡◌, ℕ, All, Some, false, map};
ghost use Rattle.lk_types.specs.Table.{Table, IsKnown};
ghost use Rattle.lk_typed.specs.Codes.{least_code};
ghost use Rattle.lk_typed.specs.Env.{field_of, members_of};
ghost use Rattle.lk_typed.specs.Meaning.{meaning, meaning_of, IsKnownType};
ghost use Rattle.lk_typed.specs.Operators.{must_be};
ghost use Rattle.lk_typed.specs.Places as spec;
ghost use Rattle.lk_typed.specs.Ty.{is_pointer};
ghost use Rattle.lk_typed.specs.Typing.{Address, Typing, place_of_type};
ghost use Rattle.lk_typed.specs.Typings.{ForEach, HasKnownFields, IsOperand, IsTyping, IsVerdict, field_in, structs_in};
ghost use Rattle.lk_check_expr.specs.Fields.{other_target_code, type_named};

use lk_base::{Code, Name};
use lk_typed::{
    Constant, ExprType, Field, Members, Typed, Verdict, is_complete, is_function, is_lock, is_void,
    struct_of, target_of,
};
use lk_types::{TypeId, TypeTable};

/// The type of the latest of these members that has a name.
fn type_named(fields: &[Field], name: &Name) -> Option<TypeId>
    ensures { result ≡ type_named fields.now name.now }
{
    let mut found = None;
    for field in fields {
        if field.name == *name {
            found = Some(field.ty);
        }
    }
    found
}

/// A place of a type.
pub(crate) fn place(ty: TypeId) -> Typed
    ensures { (table : Table) (p : Address) → IsKnown table ty →
        IsTyping table result (place_of_type (meaning table ty) p) }
{
    Typed {
        ty: ExprType::Listed(ty),
        is_place: true,
        constant: Constant::NotConstant,
        is_null: false,
    }
}

/// The member with a name is a place.
fn member_in(fields: &[Field], name: &Name) -> Verdict
    ensures { (table : Table) (p : Address) (n : ℕ) → All (λ field. IsKnown table field.ty) fields.now →
        IsVerdict table result (spec.member_in p n (field_of (map (field_in table) fields.now) name.now)) }
{
    match type_named(fields, name) {
        Some(ty) => Verdict::Typed(place(ty)),
        None => Verdict::Broken(Code::Mismatch),
    }
}

/// A member of the struct with this number; what it says of an incomplete one differs between `.` and `->`.
fn member_of(structs: &[Members], s: u32, name: &Name, when_incomplete: Code) -> Verdict
    ensures { (table : Table) (p : Address) → All (HasKnownFields table) structs.now → IsVerdict table result
        (spec.member_of when_incomplete p name.now (members_of (structs_in table structs.now) s)) }
{
    match structs.get(s as usize) {
        Some(members) => match members {
            Members::Known(fields) => member_in(fields.list(), name),
            Members::NotYet | Members::Begun => Verdict::Broken(when_incomplete),
            Members::Faulty => Verdict::Silent,
        },
        None => Verdict::Broken(when_incomplete),
    }
}

/// `.` takes a place of struct type.
pub fn dot(types: &TypeTable, structs: &[Members], e: &Typed, name: &Name) -> Verdict
    requires operand { IsOperand types.now e.now }
    requires members { All (HasKnownFields types.now) structs.now }
    ensures { ForEach types.now e.now (λ x.
        IsVerdict types.now result (spec.dot_rule (structs_in types.now structs.now) x name.now)) }
{
    match struct_of(types, &e.ty) {
        Some(s) => {
            if e.is_place {
                member_of(structs, s, name, Code::Mismatch)
            } else {
                Verdict::Broken(Code::Mismatch)
            }
        }
        None => Verdict::Broken(Code::Mismatch),
    }
}

/// The code of `->` at a pointer to what is no struct: `Code::Incomplete` where that is an incomplete type
/// other than `void` and no function, else `Code::Mismatch`.
fn other_target_code(types: &TypeTable, structs: &[Members], target: TypeId) -> Code
    requires { IsKnown types.now target }
    ensures { result ≡ other_target_code (structs_in types.now structs.now) (meaning types.now target) }
{
    let ty = ExprType::Listed(target);
    if is_void(types, &ty) || is_function(types, &ty) || is_complete(types, structs, target) {
        Code::Mismatch
    } else {
        Code::Incomplete
    }
}

/// What `->` says of a pointer to this type.
fn arrow_target(types: &TypeTable, structs: &[Members], target: TypeId, name: &Name) -> Verdict
    requires target { IsKnown types.now target }
    requires members { All (HasKnownFields types.now) structs.now }
    ensures { (x : Typing) → IsVerdict types.now result
        (spec.arrow_of (structs_in types.now structs.now) x name.now (Some (meaning types.now target))) }
{
    match struct_of(types, &ExprType::Listed(target)) {
        Some(s) => member_of(structs, s, name, Code::Incomplete),
        None => Verdict::Broken(other_target_code(types, structs, target)),
    }
}

/// The code of an operand that is no pointer but has to be one: `Code::MutexValue` for a mutex or condition
/// variable, else `Code::Mismatch`.
fn no_pointer_code(types: &TypeTable, ty: &ExprType) -> Code
    requires { IsKnownType types.now ty.now }
    ensures { is_pointer (meaning_of types.now ty.now) ≡ false →
        least_code (must_be is_pointer (meaning_of types.now ty.now)) ≡ Some result }
{
    if is_lock(types, ty) {
        Code::MutexValue
    } else {
        Code::Mismatch
    }
}

/// `->` takes a value that is a pointer to a complete struct.
pub fn arrow(types: &TypeTable, structs: &[Members], e: &Typed, name: &Name) -> Verdict
    requires operand { IsOperand types.now e.now }
    requires members { All (HasKnownFields types.now) structs.now }
    ensures { ForEach types.now e.now (λ x.
        IsVerdict types.now result (spec.arrow_rule (structs_in types.now structs.now) x name.now)) }
{
    match target_of(types, &e.ty) {
        Some(target) => arrow_target(types, structs, target, name),
        None => Verdict::Broken(no_pointer_code(types, &e.ty)),
    }
}
