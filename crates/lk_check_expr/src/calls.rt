//! Calls (C99 6.5.2.2), with what the library's functions ask of their arguments.
ghost use Rattle.std.specs.Prelude.{◌≡◌, All, IfSome, List, None, Option, Some, false, map, slice_get};
ghost use Rattle.lk_types.specs.Table.{Table, IsKnown};
ghost use Rattle.lk_typed.specs.Assignments.{given_codes};
ghost use Rattle.lk_typed.specs.Calls as spec;
ghost use Rattle.lk_typed.specs.Codes.{least_code};
ghost use Rattle.lk_typed.specs.Conversions.{is_function_pointer};
ghost use Rattle.lk_typed.specs.Env.{Env};
ghost use Rattle.lk_typed.specs.Library as rows;
ghost use Rattle.lk_typed.specs.Meaning.{meaning, meaning_of, IsKnownType, IsReady};
ghost use Rattle.lk_typed.specs.Names.{IsKnownRole, role_in};
ghost use Rattle.lk_typed.specs.Operators.{must_be};
ghost use Rattle.lk_typed.specs.Ty.{target_of};
ghost use Rattle.lk_typed.specs.Typing.{Typing};
ghost use Rattle.lk_typed.specs.Typings.{ForEach, IsOperand, IsVerdict};
ghost use Rattle.lk_check_expr.specs.Arguments.{AreArguments, ArePassedBy, IsArgument, IsKnownPasses, IsKnownPassing, IsPassedAt, further_codes, is_byte_kind, null_codes, passed_codes, routine_codes, size_by};
ghost use Rattle.lk_check_expr.specs.Signatures.{HasKnownTypes, signature_in};
ghost use Rattle.lk_check_expr.specs.Functions.{IsPassing, asked_by, parameter_in, row_of};

use crate::library::{Asks, LibraryFunction, Parameter, Passing};
use crate::looks::Look;
use crate::operators::scalar_code;
use crate::signatures::{Signature, signature_at};
use lk_base::{Code, Kind};
use lk_typed::{
    ExprType, Role, Typed, Verdict, code_if, convert_code, is_lock, is_struct, kind_of, lesser,
    target_of, unless, value,
};
use lk_types::{TypeId, TypeTable};

/// An argument of a call, or its function: what is known of it, and how it is written.
#[derive(Clone, Copy)]
pub struct Argument {
    /// What is known of it.
    pub typing: Typed,
    /// How it is written.
    pub look: Look,
}

/// How the arguments of a call are passed.
#[derive(Clone, Copy)]
enum Passes<'a> {
    /// As those of a function of the library.
    Library(&'a [Parameter]),
    /// Each converted to the type of its parameter.
    Parameters(&'a [TypeId]),
}

/// How the parameter of a library function with this index is passed.
fn parameter_at(parameters: &[Parameter], index: usize) -> Option<Passing>
    ensures { (table : Table) → IsReady table →
        IsPassedAt table result (slice_get (map parameter_in parameters.now) index) }
{
    match parameters.get(index) {
        Some(parameter) => Some(parameter.passing()),
        None => None,
    }
}

/// An argument of any other function is converted to the type of its parameter.
fn type_at(types: &[TypeId], index: usize) -> Option<Passing>
    ensures { (table : Table) → All (IsKnown table) types.now →
        IsPassedAt table result (slice_get (map (λ t. rows.Converted (meaning table t)) types.now) index) }
{
    match types.get(index) {
        Some(t) => Some(Passing::Converted(ExprType::Listed(*t))),
        None => None,
    }
}

impl Passes<'_> {
    /// How the argument with an index is passed, where there is a parameter for it.
    fn at(&self, index: usize) -> Option<Passing>
        ensures { (table : Table) (ps : List rows.Passing) → IsReady table → ArePassedBy table self.now ps →
            IsPassedAt table result (slice_get ps index) }
    {
        match self {
            Passes::Library(parameters) => parameter_at(parameters, index),
            Passes::Parameters(types) => type_at(types, index),
        }
    }
}

/// The code of a value that is converted to a type directly.
fn given_code(types: &TypeTable, target: &ExprType, e: &Typed) -> Option<Code>
    requires target { IsKnownType types.now target.now }
    requires operand { IsOperand types.now e.now }
    ensures { ForEach types.now e.now (λ x.
        result ≡ least_code (given_codes (meaning_of types.now target.now) x)) }
{
    let v = value(types, e);
    convert_code(types, target, &v)
}

/// The code of an argument that nothing converts: `Code::StructValue` for a struct, `Code::MutexValue` for a
/// mutex or condition variable.
fn whole_code(types: &TypeTable, ty: &ExprType) -> Option<Code>
    requires { IsKnownType types.now ty.now }
    ensures { result ≡ least_code (spec.passed_whole_codes (meaning_of types.now ty.now)) }
{
    let of_struct = code_if(is_struct(types, ty), Code::StructValue);
    let of_lock = code_if(is_lock(types, ty), Code::MutexValue);
    lesser(of_struct, of_lock)
}

/// The code of an argument that has to be a null pointer constant, by the code of one that isn't.
fn null_code(types: &TypeTable, code: Code, e: &Typed) -> Option<Code>
    requires { IsOperand types.now e.now }
    ensures { ForEach types.now e.now (λ x. result ≡ least_code (null_codes code x)) }
{
    let v = value(types, e);
    let other = code_if(!v.is_null, code);
    let whole = whole_code(types, &e.ty);
    lesser(other, whole)
}

/// The code of an argument that has to be the name of a start routine.
fn routine_code(types: &TypeTable, is_routine: bool, e: &Typed) -> Option<Code>
    requires { IsOperand types.now e.now }
    ensures { ForEach types.now e.now (λ x. result ≡ least_code (routine_codes is_routine x)) }
{
    let other = code_if(!is_routine, Code::StartRoutine);
    let whole = whole_code(types, &e.ty);
    lesser(other, whole)
}

/// The code of an argument behind those that have a parameter: it gets the promotions, so it
/// is a scalar (C99 6.5.2.2, 7).
fn further_code(types: &TypeTable, e: &Typed) -> Option<Code>
    requires { IsOperand types.now e.now }
    ensures { ForEach types.now e.now (λ x. result ≡ least_code (further_codes x)) }
{
    let v = value(types, e);
    if is_struct(types, &e.ty) {
        Some(Code::StructValue)
    } else {
        scalar_code(types, &v.ty)
    }
}

/// The code of an argument that has a parameter.
fn argument_code(types: &TypeTable, pass: &Passing, a: &Argument) -> Option<Code>
    requires ready { IsReady types.now }
    requires pass { IsKnownPassing types.now pass.now }
    requires operand { IsOperand types.now a.now.typing }
    ensures { (env : Env) (p : rows.Passing) (x : spec.Argument) → IsPassing types.now pass.now p →
        IsArgument types.now env a.now x → result ≡ least_code (spec.argument_codes env p x) }
{
    match pass {
        Passing::Converted(target) => given_code(types, target, &a.typing),
        Passing::NullFor(code) => null_code(types, *code, &a.typing),
        Passing::Routine => routine_code(types, a.look.is_routine, &a.typing),
        Passing::Size => given_code(types, &ExprType::Listed(TypeId::SIZE), &a.typing),
    }
}

/// The code of an argument, by how it is passed; one without a parameter stands only where `...` ends them.
fn passed_code(types: &TypeTable, pass: Option<Passing>, dots: bool, a: &Argument) -> Option<Code>
    requires ready { IsReady types.now }
    requires pass { IfSome pass (IsKnownPassing types.now) }
    requires operand { IsOperand types.now a.now.typing }
    ensures { (env : Env) (p : Option rows.Passing) (x : spec.Argument) → IsPassedAt types.now pass p →
        IsArgument types.now env a.now x → result ≡ least_code (passed_codes env dots p x) }
{
    match pass {
        Some(pass) => argument_code(types, &pass, a),
        None => {
            if dots {
                further_code(types, &a.typing)
            } else {
                Some(Code::Mismatch)
            }
        }
    }
}

/// The code of the arguments: there are as many as parameters, or where `...` ends them as
/// many at least (C99 6.5.2.2, 2).
fn arguments_code(
    types: &TypeTable,
    passes: &Passes,
    dots: bool,
    arguments: &[Argument],
) -> Option<Code>
    requires ready { IsReady types.now }
    requires passes { IsKnownPasses types.now passes.now }
    requires operands { All (λ a. IsOperand types.now a.typing) arguments.now }
    ensures { (env : Env) (ps : List rows.Passing) (xs : List spec.Argument) →
        ArePassedBy types.now passes.now ps →
        AreArguments types.now env arguments.now xs →
        result ≡ least_code (spec.arguments_codes env dots ps xs) }
{
    let behind = passes.at(arguments.len());
    let missing = behind.is_some();
    let mut code = code_if(missing, Code::Mismatch);
    for index in (0..arguments.len()).rev() {
        let argument = arguments[index];
        let pass = passes.at(index);
        let first = passed_code(types, pass, dots, &argument);
        code = lesser(first, code);
    }
    code
}

/// Whether it is the kind of a character type.
fn is_byte(kind: Kind) -> bool
    ensures { result ≡ is_byte_kind kind }
{
    matches!(kind, Kind::Char | Kind::SChar | Kind::UChar)
}

/// Whether it is a pointer to a character type, by which a call counts bytes.
fn is_byte_pointer(types: &TypeTable, ty: &ExprType) -> bool
    requires { IsKnownType types.now ty.now }
    ensures { result ≡ spec.is_byte_pointer (meaning_of types.now ty.now) }
{
    match target_of(types, ty) {
        Some(target) => match kind_of(types, &ExprType::Listed(target)) {
            Some(kind) => is_byte(kind),
            None => false,
        },
        None => false,
    }
}

/// Whether a call is directly converted to a pointer to bytes.
fn counts_bytes(types: &TypeTable, role: &Role) -> bool
    requires { IsKnownRole types.now role.now }
    ensures { result ≡ spec.counts_bytes (role_in types.now role.now) }
{
    match role {
        Role::ConvertedTo(ty) => is_byte_pointer(types, ty),
        Role::Operand | Role::Function | Role::Routine => false,
    }
}

/// Whether it is written as the size of an allocation: a `sizeof`; its product with what holds none; or no
/// `sizeof`, where the call is directly converted to a pointer to bytes.
fn is_size(look: &Look, counts_bytes: bool) -> bool
    ensures { result ≡ size_by look.now counts_bytes }
{
    look.is_sizeof || look.is_product || !look.holds_sizeof && counts_bytes
}

/// The argument with an index.
fn argument_at(arguments: &[Argument], index: usize) -> Option<Argument>
    ensures { result ≡ slice_get arguments.now index }
{
    arguments.get(index).copied()
}

/// The code of a format: `Code::Mismatch` for one that may lead to `%n`, and for what is no text.
fn format_code(arguments: &[Argument]) -> Option<Code>
    ensures { (table : Table) (env : Env) (xs : List spec.Argument) → AreArguments table env arguments.now xs →
        result ≡ least_code (spec.asked env.role rows.AFormat xs) }
{
    match argument_at(arguments, 0) {
        Some(format) => code_if(!format.look.is_format, Code::Mismatch),
        None => None,
    }
}

/// The code of the size that `malloc` is given: `Code::AllocShape` for another shape.
fn size_code(counts_bytes: bool, arguments: &[Argument]) -> Option<Code>
    ensures { (table : Table) (env : Env) (xs : List spec.Argument) →
        spec.counts_bytes env.role ≡ counts_bytes →
        AreArguments table env arguments.now xs → result ≡ least_code (spec.asked env.role rows.ASize xs) }
{
    match argument_at(arguments, 0) {
        Some(size) => {
            let taken = is_size(&size.look, counts_bytes);
            code_if(!taken, Code::AllocShape)
        }
        None => None,
    }
}

/// The code of the size of an element that `calloc` is given: `Code::AllocShape` for what is no `sizeof`.
fn element_code(arguments: &[Argument]) -> Option<Code>
    ensures { (table : Table) (env : Env) (xs : List spec.Argument) → AreArguments table env arguments.now xs →
        result ≡ least_code (spec.asked env.role rows.AnElementSize xs) }
{
    match argument_at(arguments, 1) {
        Some(size) => code_if(!size.look.is_sizeof, Code::AllocShape),
        None => None,
    }
}

/// The code of what a call asks beside its arguments: `Code::Mismatch` of a format, `Code::AllocShape` of the
/// size of an allocation.
fn asked_code(asks: Asks, counts_bytes: bool, arguments: &[Argument]) -> Option<Code>
    ensures { (table : Table) (env : Env) (xs : List spec.Argument) →
        spec.counts_bytes env.role ≡ counts_bytes →
        AreArguments table env arguments.now xs → result ≡ least_code (spec.asked env.role (asked_by asks) xs) }
{
    match asks {
        Asks::NothingMore => None,
        Asks::Format => format_code(arguments),
        Asks::Size => size_code(counts_bytes, arguments),
        Asks::ElementSize => element_code(arguments),
    }
}

/// How the arguments of a call are passed: by the library's row, or to the parameters.
fn passes_by<'a>(called: Option<LibraryFunction>, signature: &Signature<'a>) -> Passes<'a>
    ensures passed { (table : Table) → HasKnownTypes table signature.now →
        ArePassedBy table result (spec.passes_by (row_of called) (Some (signature_in table signature.now))) }
    ensures known { (table : Table) → HasKnownTypes table signature.now → IsKnownPasses table result }
{
    match called {
        Some(function) => Passes::Library(function.parameters()),
        None => Passes::Parameters(signature.params),
    }
}

/// What a call asks beside its arguments.
fn asks_of(called: Option<LibraryFunction>) -> Asks
    ensures { asked_by result ≡ spec.asks_of (row_of called) }
{
    match called {
        Some(function) => function.asks(),
        None => Asks::NothingMore,
    }
}

/// The code of an operand that is no pointer to a function but has to be one: `Code::MutexValue` for a mutex
/// or condition variable, else `Code::Mismatch`.
fn no_function_code(types: &TypeTable, ty: &ExprType) -> Code
    requires { IsKnownType types.now ty.now }
    ensures { is_function_pointer (meaning_of types.now ty.now) ≡ false →
        least_code (must_be is_function_pointer (meaning_of types.now ty.now)) ≡ Some result }
{
    if is_lock(types, ty) {
        Code::MutexValue
    } else {
        Code::Mismatch
    }
}

/// A call of a function with this signature, perhaps one of the library.
fn call_by(
    types: &TypeTable,
    role: &Role,
    called: Option<LibraryFunction>,
    signature: &Signature,
    arguments: &[Argument],
) -> Verdict
    requires ready { IsReady types.now }
    requires role { IsKnownRole types.now role.now }
    requires signature { HasKnownTypes types.now signature.now }
    requires operands { All (λ a. IsOperand types.now a.typing) arguments.now }
    ensures { (env : Env) (f : Typing) (xs : List spec.Argument) → role_in types.now role.now ≡ env.role →
        AreArguments types.now env arguments.now xs → IsVerdict types.now result
        (spec.call_of env (row_of called) f (Some (signature_in types.now signature.now)) xs) }
{
    let passes = passes_by(called, signature);
    let passed = arguments_code(types, &passes, signature.dots, arguments);
    let counted = counts_bytes(types, role);
    let asks = asks_of(called);
    let asked = asked_code(asks, counted, arguments);
    let code = lesser(passed, asked);
    let typed = Typed::of_type(ExprType::Listed(signature.result));
    unless(code, typed)
}

/// How the argument with an index is passed to what a pointer to a function points to.
fn passing_to(types: &TypeTable, ty: &ExprType, index: usize) -> Option<Passing>
    requires ready { IsReady types.now }
    requires known { IsKnownType types.now ty.now }
    ensures { IsPassedAt types.now result
        (slice_get (spec.passes_by None (spec.signature_at (target_of (meaning_of types.now ty.now)))) index) }
{
    match signature_at(types, ty) {
        Some(signature) => type_at(signature.params, index),
        None => None,
    }
}

/// How the argument with an index is passed to a function, perhaps one of the library.
fn passing_by(
    types: &TypeTable,
    called: Option<LibraryFunction>,
    ty: &ExprType,
    index: usize,
) -> Option<Passing>
    requires ready { IsReady types.now }
    requires known { IsKnownType types.now ty.now }
    ensures { IsPassedAt types.now result
        (slice_get (spec.passes_by (row_of called) (spec.signature_at (target_of (meaning_of types.now ty.now)))) index) }
{
    match called {
        Some(function) => parameter_at(function.parameters(), index),
        None => passing_to(types, ty, index),
    }
}

/// How the argument with an index is passed in a call of this function; nothing where it has no parameter.
pub fn passing(types: &TypeTable, function: &Argument, index: usize) -> Option<Passing>
    requires ready { IsReady types.now }
    requires function { IsOperand types.now function.now.typing }
    ensures passed { (env : Env) (f : spec.Argument) → IsArgument types.now env function.now f →
        IsPassedAt types.now result
        (slice_get (spec.passes_by (spec.library_called f.look.word) (spec.signature_of f.typing)) index) }
    ensures known { IfSome result (IsKnownPassing types.now) }
{
    let f = value(types, &function.typing);
    passing_by(types, function.look.called, &f.ty, index)
}

/// A call: its function is a pointer to one, and each argument converts to its parameter; the library's
/// functions ask more of theirs.
pub fn call(types: &TypeTable, role: &Role, function: &Argument, arguments: &[Argument]) -> Verdict
    requires ready { IsReady types.now }
    requires role { IsKnownRole types.now role.now }
    requires function { IsOperand types.now function.now.typing }
    requires operands { All (λ a. IsOperand types.now a.typing) arguments.now }
    ensures { (env : Env) (f : spec.Argument) (xs : List spec.Argument) →
        role_in types.now role.now ≡ env.role →
        IsArgument types.now env function.now f → AreArguments types.now env arguments.now xs →
        IsVerdict types.now result (spec.call_rule env f xs) }
{
    let f = value(types, &function.typing);
    match signature_at(types, &f.ty) {
        Some(signature) => call_by(types, role, function.look.called, &signature, arguments),
        None => Verdict::Broken(no_function_code(types, &f.ty)),
    }
}
