//! `sizeof` (C99 6.5.3.4).
ghost use Rattle.std.specs.Prelude.{◌≡◌, ◌<◌, ◌^◌, ◌&&◌, IfSome, not};
ghost use Rattle.lk_types.specs.Table.{Table, IsKnown};
ghost use Rattle.lk_typed.specs.Elements.{HasFewElements};
ghost use Rattle.lk_typed.specs.Env.{members_of};
ghost use Rattle.lk_typed.specs.Meaning.{meaning, meaning_of, IsKnownType, IsReady};
ghost use Rattle.lk_typed.specs.Places.{sizeof_rule};
ghost use Rattle.lk_typed.specs.Sizes as spec;
ghost use Rattle.lk_typed.specs.Typings.{IsVerdict, structs_in};
ghost use Rattle.lk_check_expr.specs.Whole.{size_of_whole};

use lk_arith::bytes_of;
use lk_base::{Code, Kind};
use lk_typed::{
    Constant, ExprType, Members, Typed, Verdict, code_if, form, is_complete, lesser, unless,
};
use lk_types::{CType, TypeId, TypeTable};

/// How many bytes a pointer and a thread id have.
const WORD_BYTES: u128 = 8;

/// Whether the definition of a struct is faulty.
fn is_faulty(structs: &[Members], s: u32) -> bool
    ensures { (table : Table) → result ≡ spec.is_faulty (members_of (structs_in table structs.now) s) }
{
    match structs.get(s as usize) {
        Some(members) => match members {
            Members::Faulty => true,
            Members::NotYet | Members::Begun | Members::Known(_) => false,
        },
        None => false,
    }
}

/// Whether a type is a struct with a faulty definition, or an array of such: what needs its members or size
/// has neither a type nor a fault.
pub fn is_broken(types: &TypeTable, structs: &[Members], t: TypeId) -> bool
    requires { IsKnown types.now t }
    ensures { result ≡ spec.is_broken (structs_in types.now structs.now) (meaning types.now t) }
{
    match form(types, t) {
        CType::Array(element, _) => is_broken(types, structs, *element),
        CType::Struct(s) => is_faulty(structs, *s),
        CType::Void
        | CType::Int(_)
        | CType::ThreadId
        | CType::Mutex
        | CType::Cond
        | CType::Pointer(_)
        | CType::Function { .. }
        | CType::Opaque(_) => false,
    }
}

/// Whether it is a struct, a mutex or a condition variable, or an array of such.
fn holds_struct_or_lock(types: &TypeTable, t: TypeId) -> bool
    requires { IsKnown types.now t }
    ensures { result ≡ spec.holds_struct_or_lock (meaning types.now t) }
{
    match form(types, t) {
        CType::Array(element, _) => holds_struct_or_lock(types, *element),
        CType::Struct(_) | CType::Mutex | CType::Cond => true,
        CType::Void
        | CType::Int(_)
        | CType::ThreadId
        | CType::Pointer(_)
        | CType::Function { .. }
        | CType::Opaque(_) => false,
    }
}

/// How many bytes `sizeof` counts; of structs, mutexes and condition variables no number is known.
fn bytes_in(types: &TypeTable, t: TypeId) -> Option<u128>
    requires known { IsKnown types.now t }
    requires few { HasFewElements types.now }
    ensures { result ≡ spec.bytes_in (meaning types.now t) }
{
    match form(types, t) {
        CType::Int(kind) => Some(u128::from(bytes_of(*kind))),
        CType::ThreadId | CType::Pointer(_) => Some(WORD_BYTES),
        CType::Array(element, count) => match bytes_in(types, *element) {
            Some(bytes) => Some(u128::from(*count) * bytes),
            None => None,
        },
        CType::Void
        | CType::Mutex
        | CType::Cond
        | CType::Struct(_)
        | CType::Function { .. }
        | CType::Opaque(_) => None,
    }
}

/// The constant that a `sizeof` is (C99 6.6, 6).
fn constant_of(bytes: Option<u128>) -> Constant
    requires { IfSome bytes (λ n. n < 2 ^ 127) }
    ensures { result ≡ spec.constant_of_bytes bytes }
{
    match bytes {
        Some(bytes) => Constant::Known(bytes as i128),
        None => Constant::NotConstant,
    }
}

/// Whether `sizeof` may not count a complete type: it holds a struct, mutex or condition variable, and this
/// is no size of an allocation.
fn is_uncounted(types: &TypeTable, t: TypeId, in_size: bool) -> bool
    requires { IsKnown types.now t }
    ensures { result ≡ (spec.holds_struct_or_lock (meaning types.now t) && not in_size) }
{
    holds_struct_or_lock(types, t) && !in_size
}

/// `sizeof` of a type of the table that isn't broken.
fn size_of_whole(types: &TypeTable, structs: &[Members], t: TypeId, in_size: bool) -> Verdict
    requires ready { IsReady types.now }
    requires few { HasFewElements types.now }
    requires known { IsKnown types.now t }
    ensures { IsVerdict types.now result
        (size_of_whole (structs_in types.now structs.now) in_size (meaning types.now t)) }
{
    let complete = is_complete(types, structs, t);
    let incomplete = code_if(!complete, Code::Incomplete);
    let uncounted = is_uncounted(types, t, in_size);
    let of_struct = code_if(uncounted, Code::SizeofStruct);
    let code = lesser(incomplete, of_struct);
    let bytes = bytes_in(types, t);
    let constant = constant_of(bytes);
    let typed = Typed::integer(Kind::ULong, constant);
    unless(code, typed)
}

/// `sizeof` of a type, or of an expression of that type; `in_size` says whether it stands in the size of an
/// allocation. Of a complete object type it counts bytes; one that holds a struct, mutex or condition
/// variable has a size only there.
pub fn size_of(types: &TypeTable, structs: &[Members], ty: &ExprType, in_size: bool) -> Verdict
    requires ready { IsReady types.now }
    requires few { HasFewElements types.now }
    requires known { IsKnownType types.now ty.now }
    ensures { IsVerdict types.now result
        (sizeof_rule (structs_in types.now structs.now) in_size (meaning_of types.now ty.now)) }
{
    match ty {
        ExprType::Listed(t) => {
            if is_broken(types, structs, *t) {
                Verdict::Silent
            } else {
                size_of_whole(types, structs, *t, in_size)
            }
        }
        ExprType::PointerTo(_) => {
            let constant = constant_of(Some(WORD_BYTES));
            Verdict::Typed(Typed::integer(Kind::ULong, constant))
        }
    }
}
