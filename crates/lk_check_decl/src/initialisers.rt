//! The rules of initialisers (C99 6.7.8). Each inner struct and each inner array has braces of its own, or is
//! an array that a text initialises; so an entry of a list initialises one element or one member, in order.
ghost use Rattle.std.specs.Prelude.{◌≡◌, ◌||◌, ◌∷◌, [], not, All, Some, IfSome, map, length, slice_get, if◌then◌else◌};
ghost use Rattle.lk_base.specs.declared.code.Code.TheVariants.{BadInitialiser, NotConstant};
ghost use Rattle.std.specs.Option.{option_map};
ghost use Rattle.lk_types.specs.Table.{Table, IsKnown};
ghost use Rattle.lk_typed.specs.DeclaratorRules.{unless as spec_unless};
ghost use Rattle.lk_typed.specs.Env.{Env, members_of};
ghost use Rattle.lk_typed.specs.Faults.{breach};
ghost use Rattle.lk_typed.specs.InitialiserRules as spec;
ghost use Rattle.lk_typed.specs.Initialisers.{entry_object};
ghost use Rattle.lk_typed.specs.MemberRules.{fields_in, types_in};
ghost use Rattle.lk_typed.specs.Meaning.{meaning, IsKnownType};
ghost use Rattle.lk_typed.specs.Ty.{holds_of, is_same};
ghost use Rattle.lk_typed.specs.Typings.{structs_in, HasKnownFields};
ghost use Rattle.lk_check_decl.specs.Breaches.{told};
ghost use Rattle.lk_check_decl.specs.Initialisers.{braces_of, object_in, IsKnownSeen, IsSeen};

use crate::arrays::MOST_ELEMENTS;
use crate::breaches::unless;
use lk_base::{Code, Kind};
use lk_typed::{ExprType, Field, Members, are_same, form, is_struct, lesser};
use lk_types::{CType, TypeId, TypeTable};

/// An expression that initialises something, where it has a type, or an initialiser word.
#[derive(Clone, Copy)]
pub struct Seen {
    /// The type of its value, or of the object that the word initialises.
    pub ty: ExprType,
    /// How many bytes a text has, without the zero at its end.
    pub text: Option<u32>,
    /// The type whose initialiser word it is.
    pub word: Option<TypeId>,
    /// The code of its conversion to the object's type.
    pub conversion: Option<Code>,
    /// Whether it is an integer constant or an address constant (C99 6.6, 6 to 9).
    pub is_constant: bool,
}

/// What is initialised.
#[derive(Clone, Copy)]
pub struct Target {
    /// Its type.
    pub ty: TypeId,
    /// Whether it is an element or a member of what a list round it initialises.
    pub is_inner: bool,
    /// Whether its storage is static (C99 6.2.4, 3).
    pub is_static: bool,
}

/// A list in braces.
#[derive(Clone, Copy)]
pub struct Braces {
    /// How many entries it has.
    pub entries: u32,
    /// Whether an entry has a designator.
    pub has_designator: bool,
    /// How many bytes the text has that is all of it, without the zero at its end.
    pub text: Option<u32>,
}

/// Whether arrays of this kind may be initialised by a text (C99 6.7.8, 14).
fn is_character(kind: Kind) -> bool
    ensures { result ≡ spec.is_character kind }
{
    match kind {
        Kind::Char | Kind::SChar | Kind::UChar => true,
        Kind::Bool
        | Kind::Short
        | Kind::UShort
        | Kind::Int
        | Kind::UInt
        | Kind::Long
        | Kind::ULong
        | Kind::LLong
        | Kind::ULLong => false,
    }
}

/// Whether arrays of this type may be initialised by a text.
fn is_character_type(types: &TypeTable, t: TypeId) -> bool
    requires { IsKnown types.now t }
    ensures { result ≡ spec.is_character_type (meaning types.now t) }
{
    match form(types, t) {
        CType::Int(kind) => is_character(*kind),
        CType::Void
        | CType::ThreadId
        | CType::Mutex
        | CType::Cond
        | CType::Pointer(_)
        | CType::Array(_, _)
        | CType::Struct(_)
        | CType::Function { .. }
        | CType::Opaque(_) => false,
    }
}

/// The code where braces are missing: `Code::BadInitialiser` round something inner, else that of the
/// outermost object.
fn without_braces(target: &Target, outermost: Code) -> Option<Code>
    ensures { result ≡ told
        (if target.now.is_inner then breach BadInitialiser ∷ [] else breach outermost ∷ []) }
{
    if target.is_inner {
        return Some(Code::BadInitialiser);
    }
    Some(outermost)
}

/// The code of an expression that initialises a struct: `Code::StructValue` of a struct's value,
/// `Code::Mismatch` of any other one; `Code::BadInitialiser` where the struct is itself inside braces.
fn struct_code(types: &TypeTable, target: &Target, seen: &Seen) -> Option<Code>
    requires { IsKnownType types.now seen.now.ty }
    ensures { (x : spec.Seen) → IsSeen types.now seen.now x →
        result ≡ told (spec.struct_rules (object_in types.now target.now) x) }
{
    if is_struct(types, &seen.ty) {
        without_braces(target, Code::StructValue)
    } else {
        without_braces(target, Code::Mismatch)
    }
}

/// The code of an expression that initialises an array: a text fits into an array of characters, where its
/// zero may be left out (C99 6.7.8, 14); an array without a size has room.
fn text_code(
    types: &TypeTable,
    target: &Target,
    element: TypeId,
    count: u64,
    text: Option<u32>,
) -> Option<Code>
    requires { IsKnown types.now element }
    ensures { result
        ≡ told (spec.array_by (object_in types.now target.now) (meaning types.now element) count text) }
{
    match text {
        Some(bytes) => {
            if is_character_type(types, element) {
                unless(
                    count == 0 || u64::from(bytes) <= count,
                    Code::BadInitialiser,
                )
            } else {
                without_braces(target, Code::Mismatch)
            }
        }
        None => without_braces(target, Code::Mismatch),
    }
}

/// Whether a word initialises objects of this type.
fn is_word_of(types: &TypeTable, lock: TypeId, word: Option<TypeId>) -> bool
    requires lock { IsKnown types.now lock }
    requires word { IfSome word (IsKnown types.now) }
    ensures { result ≡ holds_of (option_map (meaning types.now) word) (is_same (meaning types.now lock)) }
{
    match word {
        Some(word) => are_same(types, &ExprType::Listed(lock), &ExprType::Listed(word)),
        None => false,
    }
}

/// The code of an expression that initialises a mutex or a condition variable: `Code::MutexValue` unless it
/// is the word for its type (POSIX, `pthread_mutex_init`).
fn lock_code(types: &TypeTable, target: &Target, seen: &Seen) -> Option<Code>
    requires target { IsKnown types.now target.now.ty }
    requires seen { IsKnownSeen types.now seen.now }
    ensures { (x : spec.Seen) → IsSeen types.now seen.now x →
        result ≡ told (spec.lock_rules (meaning types.now target.now.ty) x) }
{
    unless(is_word_of(types, target.ty, seen.word), Code::MutexValue)
}

/// The code of an expression by what constant it is: `Code::NotConstant` of a static object where it is none
/// (C99 6.7.8, 4).
fn constant_code(target: &Target, seen: &Seen) -> Option<Code>
    ensures { result ≡ told (spec_unless
        (not target.now.is_static || seen.now.is_constant) NotConstant) }
{
    if target.is_static && !seen.is_constant {
        Some(Code::NotConstant)
    } else {
        None
    }
}

/// The code of an expression that initialises an object which holds a value: that of the conversion
/// (C99 6.7.8, 11), and `Code::NotConstant` of a static object where it isn't constant (6.7.8, 4).
fn scalar_code(target: &Target, seen: &Seen) -> Option<Code>
    ensures { (table : Table) (x : spec.Seen) → IsSeen table seen.now x →
        result ≡ told (spec.scalar_rules (object_in table target.now) x) }
{
    let constant = constant_code(target, seen);
    lesser(seen.conversion, constant)
}

/// The code of an initialiser that is an expression.
pub fn expression_code(types: &TypeTable, target: &Target, seen: &Seen) -> Option<Code>
    requires target { IsKnown types.now target.now.ty }
    requires seen { IsKnownSeen types.now seen.now }
    ensures { (x : spec.Seen) → IsSeen types.now seen.now x →
        result ≡ told (spec.expression_rules (object_in types.now target.now) (Some x)) }
{
    match form(types, target.ty) {
        CType::Int(_) | CType::ThreadId | CType::Pointer(_) => scalar_code(target, seen),
        CType::Mutex | CType::Cond => lock_code(types, target, seen),
        CType::Array(element, count) => text_code(types, target, *element, *count, seen.text),
        CType::Struct(_) => struct_code(types, target, seen),
        CType::Void | CType::Function { .. } | CType::Opaque(_) => None,
    }
}

/// Whether a text in its own braces initialises an array of these elements.
fn is_text(types: &TypeTable, element: TypeId, text: Option<u32>) -> bool
    requires { IsKnown types.now element }
    ensures { result ≡ spec.is_text (meaning types.now element) text }
{
    text.is_some() && is_character_type(types, element)
}

/// Whether a list that is a text alone initialises an object of this type, as the text would
/// without the braces (C99 6.7.8, 14).
pub fn is_text_for(types: &TypeTable, t: TypeId, text: Option<u32>) -> bool
    requires { IsKnown types.now t }
    ensures { result ≡ spec.is_text_for (meaning types.now t) text }
{
    match form(types, t) {
        CType::Array(element, _) => is_text(types, *element, text),
        CType::Void
        | CType::Int(_)
        | CType::ThreadId
        | CType::Mutex
        | CType::Cond
        | CType::Pointer(_)
        | CType::Struct(_)
        | CType::Function { .. }
        | CType::Opaque(_) => false,
    }
}

/// The members of a struct that are known.
fn fields_of(structs: &[Members], s: u32) -> &[Field]
    ensures types { (table : Table) → map (λ field. meaning table field.ty) result.now
        ≡ types_in (members_of (structs_in table structs.now) s) }
    ensures known { (table : Table) → All (HasKnownFields table) structs.now →
        All (λ field. IsKnown table field.ty) result.now }
{
    if s as usize >= structs.len() {
        return &[];
    }
    match &structs[s as usize] {
        Members::Known(fields) => fields.list(),
        Members::NotYet | Members::Begun | Members::Faulty => &[],
    }
}

/// How many members of a struct are known.
fn field_count(structs: &[Members], s: u32) -> usize
    ensures { (table : Table) → result ≡ length (types_in (members_of (structs_in table structs.now) s)) }
{
    fields_of(structs, s).len()
}

/// The code of so many entries: `Code::BadInitialiser` where they are more than what is initialised has parts
/// (C99 6.7.8, 2). An array without a size has as many as its list.
fn count_code(entries: u32, count: u64) -> Option<Code>
    ensures { result ≡ told (spec.count_rules entries count) }
{
    unless(
        count == 0 || u64::from(entries) <= count,
        Code::BadInitialiser,
    )
}

/// The code of a list in braces by what it initialises: `Code::BadInitialiser` round a scalar, a mutex or a
/// condition variable, or where it has too many entries.
fn listed_code(types: &TypeTable, structs: &[Members], braces: Braces, t: TypeId) -> Option<Code>
    requires { IsKnown types.now t }
    ensures { (env : Env) → env.structs ≡ structs_in types.now structs.now → result
        ≡ told (spec.by_list (fields_in env) (braces_of braces) (meaning types.now t)) }
{
    match form(types, t) {
        CType::Int(_) | CType::ThreadId | CType::Mutex | CType::Cond | CType::Pointer(_) => Some(
            Code::BadInitialiser,
        ),
        CType::Array(element, count) => {
            if is_text(types, *element, braces.text) {
                None
            } else {
                count_code(braces.entries, *count)
            }
        }
        CType::Struct(s) => count_code(braces.entries, field_count(structs, *s) as u64),
        CType::Void | CType::Function { .. } | CType::Opaque(_) => None,
    }
}

/// The code of a list in braces: `Code::BadInitialiser` where an entry has a designator, where it stands
/// round a scalar, a mutex or a condition variable, or where it has too many entries.
pub fn list_code(
    types: &TypeTable,
    structs: &[Members],
    target: &Target,
    braces: Braces,
) -> Option<Code>
    requires { IsKnown types.now target.now.ty }
    ensures { (env : Env) → env.structs ≡ structs_in types.now structs.now → result
        ≡ told (spec.list_rules (fields_in env) (object_in types.now target.now) (braces_of braces)) }
{
    if braces.has_designator {
        Some(Code::BadInitialiser)
    } else {
        listed_code(types, structs, braces, target.ty)
    }
}

/// The type of the member of a struct with this number, from 0 on.
fn field_type(structs: &[Members], s: u32, number: u32) -> Option<TypeId>
    ensures value { (table : Table) → option_map (meaning table) result
        ≡ slice_get (types_in (members_of (structs_in table structs.now) s)) number }
    ensures known { (table : Table) → All (HasKnownFields table) structs.now → IfSome result (IsKnown table) }
{
    let fields = fields_of(structs, s);
    if (number as usize) < fields.len() {
        Some(fields[number as usize].ty)
    } else {
        None
    }
}

/// The type of what the entry with this number, from 0 on, of a list round an object initialises, where there
/// is something: the element, or the member.
pub fn entry_type(types: &TypeTable, structs: &[Members], t: TypeId, number: u32) -> Option<TypeId>
    requires { IsKnown types.now t }
    ensures value { (env : Env) → env.structs ≡ structs_in types.now structs.now →
        option_map (meaning types.now) result
        ≡ spec.entry_type (fields_in env) (meaning types.now t) number }
    ensures known { All (HasKnownFields types.now) structs.now → IfSome result (IsKnown types.now) }
{
    match form(types, t) {
        CType::Array(element, count) => {
            if *count == 0 || u64::from(number) < *count {
                Some(*element)
            } else {
                None
            }
        }
        CType::Struct(s) => field_type(structs, *s, number),
        CType::Void
        | CType::Int(_)
        | CType::ThreadId
        | CType::Mutex
        | CType::Cond
        | CType::Pointer(_)
        | CType::Function { .. }
        | CType::Opaque(_) => None,
    }
}

/// What the entry with this number, from 0 on, of a list round an object initialises, where there is
/// something: a text that is all of the list the array itself, where it may, else the element or member.
pub fn entry_target(
    types: &TypeTable,
    structs: &[Members],
    target: &Target,
    text: Option<u32>,
    number: u32,
) -> Option<Target>
    requires { IsKnown types.now target.now.ty }
    ensures value { (env : Env) → env.structs ≡ structs_in types.now structs.now →
        option_map (object_in types.now) result
        ≡ entry_object env (Some (object_in types.now target.now)) text number }
    ensures known { All (HasKnownFields types.now) structs.now →
        IfSome result (λ t. IsKnown types.now t.ty) }
{
    if is_text_for(types, target.ty, text) {
        return Some(*target);
    }
    match entry_type(types, structs, target.ty, number) {
        Some(ty) => Some(Target {
            ty,
            is_inner: true,
            is_static: target.is_static,
        }),
        None => None,
    }
}

/// The size that a text gives an array: its bytes and its zero (C99 6.7.8, 22); 0 where there is none.
pub fn text_size(text: Option<u32>) -> u64
    ensures { result ≡ spec.with_zero text }
{
    match text {
        Some(bytes) => u64::from(bytes) + 1,
        None => 0,
    }
}

/// The size that a list gives an array of these elements (C99 6.7.8, 22).
pub fn list_size(types: &TypeTable, element: TypeId, braces: Braces) -> u64
    requires { IsKnown types.now element }
    ensures { result ≡ spec.size_given (meaning types.now element) (braces_of braces) }
{
    if is_text(types, element, braces.text) {
        text_size(braces.text)
    } else {
        u64::from(braces.entries)
    }
}

/// The code of a size that an initialiser gives: `Code::VariableArray` where it is more than an array may
/// have. It stands at the declared name.
#[tactic(auto, unfolding(lk_typed::specs::DeclaratorRules::most_elements))]
pub fn size_code(size: u64) -> Option<Code>
    ensures { result ≡ told (spec.given_rules size) }
{
    unless(size <= MOST_ELEMENTS, Code::VariableArray)
}
