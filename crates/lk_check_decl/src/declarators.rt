//! The rules of pointers, functions and parameters (C99 6.7.5.1, 6.7.5.3).
ghost use Rattle.std.specs.Prelude.{◌≡◌, IfSome};
ghost use Rattle.std.specs.Option.{option_map};
ghost use Rattle.lk_types.specs.Table.{IsKnown};
ghost use Rattle.lk_typed.specs.DeclarationRules.{definition_rules};
ghost use Rattle.lk_typed.specs.DeclaratorRules as spec;
ghost use Rattle.lk_typed.specs.Meaning.{meaning};
ghost use Rattle.lk_typed.specs.NodeRules.{parameter_node_rules, void_rules};
ghost use Rattle.lk_check_decl.specs.Breaches.{told};

use crate::breaches::unless;
use lk_base::Code;
use lk_typed::{ExprType, form, is_void};
use lk_types::{CType, TypeId, TypeTable};

/// Whether a type is that of a function with `...`.
fn has_dots(types: &TypeTable, t: TypeId) -> bool
    requires { IsKnown types.now t }
    ensures { result ≡ spec.has_dots (meaning types.now t) }
{
    match form(types, t) {
        CType::Function { dots, .. } => *dots,
        CType::Void
        | CType::Int(_)
        | CType::ThreadId
        | CType::Mutex
        | CType::Cond
        | CType::Pointer(_)
        | CType::Array(_, _)
        | CType::Struct(_)
        | CType::Opaque(_) => false,
    }
}

/// The code of `* declarator`: `Code::OwnVararg` of a pointer to a function with `...`.
pub fn pointer_code(types: &TypeTable, target: Option<TypeId>) -> Option<Code>
    requires { IfSome target (IsKnown types.now) }
    ensures { result ≡ told (spec.pointer_rules (option_map (meaning types.now) target)) }
{
    match target {
        Some(t) => unless(!has_dots(types, t), Code::OwnVararg),
        None => None,
    }
}

/// The code of a function's definition: `Code::OwnVararg` where it has `...`.
pub fn definition_code(types: &TypeTable, t: Option<TypeId>) -> Option<Code>
    requires { IfSome t (IsKnown types.now) }
    ensures { result ≡ told (definition_rules (option_map (meaning types.now) t)) }
{
    match t {
        Some(t) => unless(!has_dots(types, t), Code::OwnVararg),
        None => None,
    }
}

/// The code of a type that a function returns.
fn returned_code(types: &TypeTable, t: TypeId) -> Option<Code>
    requires { IsKnown types.now t }
    ensures { result ≡ told (spec.function_rules (Some (meaning types.now t))) }
{
    match form(types, t) {
        CType::Array(_, _) | CType::Function { .. } => Some(Code::Mismatch),
        CType::Struct(_) => Some(Code::StructValue),
        CType::Mutex | CType::Cond => Some(Code::MutexValue),
        CType::Void | CType::Int(_) | CType::ThreadId | CType::Pointer(_) | CType::Opaque(_) =>
            None,
    }
}

/// The code of `declarator(parameters)`: `Code::Mismatch` where it returns a function or an array
/// (C99 6.7.5.3, 1), `Code::StructValue` where it returns a struct, `Code::MutexValue` where it returns a
/// mutex or a condition variable.
pub fn function_code(types: &TypeTable, returned: Option<TypeId>) -> Option<Code>
    requires { IfSome returned (IsKnown types.now) }
    ensures { result ≡ told (spec.function_rules (option_map (meaning types.now) returned)) }
{
    match returned {
        Some(t) => returned_code(types, t),
        None => None,
    }
}

/// The code of a parameter's type.
fn passed_code(types: &TypeTable, is_named: bool, t: TypeId) -> Option<Code>
    requires { IsKnown types.now t }
    ensures { result ≡ told (spec.parameter_rules is_named (Some (meaning types.now t))) }
{
    match form(types, t) {
        CType::Function { dots, .. } => unless(!*dots, Code::OwnVararg),
        CType::Struct(_) => Some(Code::StructValue),
        CType::Mutex | CType::Cond => Some(Code::MutexValue),
        CType::Void => unless(is_named, Code::Incomplete),
        CType::Int(_)
        | CType::ThreadId
        | CType::Pointer(_)
        | CType::Array(_, _)
        | CType::Opaque(_) => None,
    }
}

/// The code of a parameter by its type as it is written: `Code::OwnVararg` of a function with `...`,
/// `Code::StructValue` of a struct, `Code::MutexValue` of a mutex or a condition variable, and
/// `Code::Incomplete` of `void` where it has no name; with a name, `Code::Incomplete` stands at that.
/// `(void)` alone breaks no rule (C99 6.7.5.3, 10).
pub fn parameter_code(
    types: &TypeTable,
    is_named: bool,
    is_bare_void: bool,
    t: Option<TypeId>,
) -> Option<Code>
    requires { IfSome t (IsKnown types.now) }
    ensures { result
        ≡ told (parameter_node_rules is_named is_bare_void (option_map (meaning types.now) t)) }
{
    if is_bare_void {
        return None;
    }
    match t {
        Some(t) => passed_code(types, is_named, t),
        None => None,
    }
}

/// The code at the name of a parameter: `Code::Incomplete` where its type is `void`.
pub fn parameter_name_code(types: &TypeTable, t: Option<TypeId>) -> Option<Code>
    requires { IfSome t (IsKnown types.now) }
    ensures { result ≡ told (spec.of_type (option_map (meaning types.now) t) void_rules) }
{
    match t {
        Some(t) => unless(!is_void(types, &ExprType::Listed(t)), Code::Incomplete),
        None => None,
    }
}
