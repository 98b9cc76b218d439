//! What initialisers are in the words of their rules (C99 6.7.8).
ghost use Rattle.std.specs.Prelude.{◌≡◌, All, IfSome, option_map};
ghost use Rattle.lk_types.specs.Table.{Table, IsKnown};
ghost use Rattle.lk_typed.specs.Addresses.{value as spec_value};
ghost use Rattle.lk_typed.specs.Env.{Env};
ghost use Rattle.lk_typed.specs.Initialisers.{entry_object};
ghost use Rattle.lk_typed.specs.Meaning.{meaning};
ghost use Rattle.lk_typed.specs.Statics.{is_static_value};
ghost use Rattle.lk_typed.specs.Typing.{Typing};
ghost use Rattle.lk_typed.specs.Typings.{structs_in, HasKnownFields, IsOperand, IsTyping};
ghost use Rattle.lk_check_decl.specs.Breaches.{told};
ghost use Rattle.lk_check_decl.specs.Initialisers.{braces_of, IsKnownSeen, IsSeen};
ghost use Rattle.lk_found.specs.Addresses.{kept_of};
ghost use Rattle.lk_found.specs.Judging.{HasOperand};
ghost use Rattle.lk_check_unit.specs.Initialising.{braces_rules, object_for, object_type, seen_rules};
ghost use Rattle.lk_check_unit.specs.Initialising.{typed_rules, typed_seen, word_seen, IsInitCode};
ghost use Rattle.lk_check_unit.specs.Initialising.{IsKnownTarget};

use lk_base::Code;
use lk_check_decl::{Braces, Seen, Target, entry_target, expression_code, list_code};
use lk_found::{Address, Found, is_address, value_address};
use lk_typed::{Constant, ExprType, Members, Typed, convert_code, value};
use lk_types::{TypeId, TypeTable};

/// The type of what is initialised, where that is known.
pub(crate) fn target_type(target: &Option<Target>) -> Option<TypeId>
    ensures value { (table : Table) → option_map (meaning table) result ≡
        object_type (object_for table target.now) }
    ensures known { (table : Table) → IsKnownTarget table target.now → IfSome result (IsKnown table) }
{
    match target {
        Some(target) => Some(target.ty),
        None => None,
    }
}

/// The code of an initialiser word.
pub(crate) fn word_code(types: &TypeTable, target: &Option<Target>, word: TypeId) -> Option<Code>
    requires target { IsKnownTarget types.now target.now }
    requires word { IsKnown types.now word }
    ensures { result ≡
        told (seen_rules (object_for types.now target.now) (word_seen (meaning types.now word))) }
{
    match target {
        Some(target) => {
            let seen = Seen {
                ty: ExprType::Listed(word),
                text: None,
                word: Some(word),
                conversion: Some(Code::Mismatch),
                is_constant: false,
            };
            expression_code(types, target, &seen)
        }
        None => None,
    }
}

/// Whether a value is a constant of an integer type, or an address constant (C99 6.6, 6 to 9).
fn is_constant(types: &TypeTable, typing: &Typed, v: &Typed, address: Address) -> bool
    requires { IsOperand types.now typing.now }
    ensures { (x : Typing) → IsTyping types.now typing.now x → IsTyping types.now v.now (spec_value x) →
        address ≡ kept_of x.address → result ≡ is_static_value (spec_value x) }
{
    matches!(v.constant, Constant::Known(_)) || is_address(value_address(types, typing, address))
}

/// An expression with a type, as it initialises something.
fn seen(
    types: &TypeTable,
    target: &Target,
    text: Option<u32>,
    typing: &Typed,
    address: Address,
) -> Seen
    requires operand { IsOperand types.now typing.now }
    requires target { IsKnown types.now target.now.ty }
    ensures known { IsKnownSeen types.now result }
    ensures seen { (x : Typing) → IsTyping types.now typing.now x → address ≡ kept_of x.address →
        IsSeen types.now result (typed_seen text (meaning types.now target.now.ty) x) }
{
    let v = value(types, typing);
    Seen {
        ty: v.ty,
        text,
        word: None,
        conversion: convert_code(types, &ExprType::Listed(target.ty), &v),
        is_constant: is_constant(types, typing, &v, address),
    }
}

/// The code of an expression with a type.
pub(crate) fn typed_code(
    types: &TypeTable,
    target: &Option<Target>,
    text: Option<u32>,
    typing: &Typed,
    address: Address,
) -> Option<Code>
    requires operand { IsOperand types.now typing.now }
    requires target { IsKnownTarget types.now target.now }
    ensures { (x : Typing) → IsTyping types.now typing.now x → address ≡ kept_of x.address →
        result ≡ told (typed_rules (object_for types.now target.now) text x) }
{
    match target {
        Some(target) => {
            let seen = seen(types, target, text, typing, address);
            expression_code(types, target, &seen)
        }
        None => None,
    }
}

/// The code of a list.
pub(crate) fn braces_code(
    types: &TypeTable,
    structs: &[Members],
    target: &Option<Target>,
    braces: Braces,
) -> Option<Code>
    requires { IsKnownTarget types.now target.now }
    ensures { (env : Env) → env.structs ≡ structs_in types.now structs.now →
        result ≡ told (braces_rules env (object_for types.now target.now) (braces_of braces)) }
{
    match target {
        Some(target) => list_code(types, structs, target, braces),
        None => None,
    }
}

/// What an entry of a list initialises.
pub(crate) fn part_of(
    types: &TypeTable,
    structs: &[Members],
    target: &Option<Target>,
    text: Option<u32>,
    number: u32,
) -> Option<Target>
    requires { IsKnownTarget types.now target.now }
    ensures value { (env : Env) → env.structs ≡ structs_in types.now structs.now →
        object_for types.now result ≡ entry_object env (object_for types.now target.now) text number }
    ensures known { All (HasKnownFields types.now) structs.now → IsKnownTarget types.now result }
{
    match target {
        Some(target) => entry_target(types, structs, target, text, number),
        None => None,
    }
}

/// The code of an expression that is no initialiser word, where it has a type.
pub(crate) fn found_code(
    types: &TypeTable,
    target: &Option<Target>,
    text: Option<u32>,
    found: &Found,
) -> Option<Code>
    requires operand { HasOperand types.now found.now }
    requires target { IsKnownTarget types.now target.now }
    ensures { IsInitCode types.now target.now text found.now result }
{
    match &found.typing {
        Some(typing) => typed_code(types, target, text, typing, found.address),
        None => None,
    }
}
