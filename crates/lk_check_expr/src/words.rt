//! Names as expressions (C99 6.5.1), and the names whose use is refused.
ghost use Rattle.std.specs.Prelude.{◌≡◌, ◌&&◌, ◌||◌, ℕ, Some, None, IfSome, map, not};
ghost use Rattle.std.specs.Option.{option_map};
ghost use Rattle.lk_types.specs.Table.{Table, IsKnown};
ghost use Rattle.lk_base.specs.declared.code.Code.TheVariants.{Mismatch};
ghost use Rattle.lk_typed.specs.Codes as told;
ghost use Rattle.lk_typed.specs.Codes.{least_code};
ghost use Rattle.lk_typed.specs.Env.{Env, is_one_of};
ghost use Rattle.lk_typed.specs.Meaning.{meaning, IsReady};
ghost use Rattle.lk_typed.specs.Names.{IsKnownMeaning, IsKnownName, declared_in, meaning_in, role_in};
ghost use Rattle.lk_typed.specs.Ty.{function_of, holds_of};
ghost use Rattle.lk_typed.specs.Typing.{if_so};
ghost use Rattle.lk_typed.specs.Typings.{IsTyping, IsVerdict, told_by_row};
ghost use Rattle.lk_typed.specs.Words as spec;
ghost use Rattle.lk_check_expr.specs.NameUses.{IsUse, refused_in, told_if_refused, told_undeclared};

use crate::fields::place;
use crate::library::LibraryFunction;
use lk_base::{Code, Kind, Name};
use lk_typed::{
    Constant, Declared, ExprType, Meaning, Role, Typed, Verdict, by_row, code_if, form, is_integer,
    is_void, lesser, unless,
};
use lk_types::{CType, TypeId, TypeTable};

/// How a name is used as an expression, and what is said of it elsewhere.
#[derive(Clone, Copy)]
pub struct NameUse {
    /// What it stands as.
    pub role: Role,
    /// Whether the source defines a function of this name, at any place of it.
    pub is_defined: bool,
    /// Whether `--externs` lists it.
    pub is_listed: bool,
}

/// Names whose use is refused, with the code that it breaks.
#[derive(Clone, Copy)]
enum Refused {
    /// This name.
    Name(&'static str, Code),
    /// Each name that begins so.
    Beginning(&'static str, Code),
}

const REFUSED: [Refused; 25] = [
    Refused::Name("pthread_mutex_trylock", Code::TryLock),
    Refused::Name("pthread_mutex_timedlock", Code::TryLock),
    Refused::Beginning("pthread_rwlock_", Code::TryLock),
    Refused::Name("setjmp", Code::LongJmp),
    Refused::Name("_setjmp", Code::LongJmp),
    Refused::Name("sigsetjmp", Code::LongJmp),
    Refused::Name("longjmp", Code::LongJmp),
    Refused::Name("siglongjmp", Code::LongJmp),
    Refused::Beginning("__sync_", Code::Atomic),
    Refused::Beginning("__atomic_", Code::Atomic),
    Refused::Beginning("atomic_", Code::Atomic),
    Refused::Name("realloc", Code::UnknownExternal),
    Refused::Name("memset", Code::UnknownExternal),
    Refused::Name("memcpy", Code::UnknownExternal),
    Refused::Name("memmove", Code::UnknownExternal),
    Refused::Name("pthread_cond_timedwait", Code::UnknownExternal),
    Refused::Name("pthread_cancel", Code::UnknownExternal),
    Refused::Name("pthread_once", Code::UnknownExternal),
    Refused::Beginning("pthread_spin_", Code::UnknownExternal),
    Refused::Beginning("pthread_barrier_", Code::UnknownExternal),
    Refused::Beginning("pthread_key_", Code::UnknownExternal),
    Refused::Beginning("pthread_setspecific", Code::UnknownExternal),
    Refused::Beginning("pthread_getspecific", Code::UnknownExternal),
    Refused::Beginning("pthread_cleanup_", Code::UnknownExternal),
    Refused::Beginning("sem_", Code::UnknownExternal),
];

/// Whether a row refuses a name.
#[tactic(auto, using(crate::proofs::Refusals::begins_same))]
fn is_refused_by(row: Refused, name: &Name) -> bool
    ensures { result ≡ spec.is_refused_by (refused_in row) name.now }
{
    match row {
        Refused::Name(word, _) => word.as_bytes() == name.bytes(),
        Refused::Beginning(word, _) => name.bytes().starts_with(word.as_bytes()),
    }
}

/// The code of a row.
fn code_of(row: Refused) -> Code
    ensures { result ≡ (refused_in row).code }
{
    match row {
        Refused::Name(_, code) | Refused::Beginning(_, code) => code,
    }
}

/// The code of a row, where it refuses a name.
fn code_by(row: Refused, name: &Name) -> Option<Code>
    ensures { result ≡ least_code (if_so (spec.is_refused_by (refused_in row) name.now) (refused_in row).code) }
{
    let refused = is_refused_by(row, name);
    let code = code_of(row);
    code_if(refused, code)
}

/// The least code of the rows that refuse a name.
#[tactic(auto, using(crate::proofs::Refusals::lesser_none))]
fn code_among(rows: &[Refused], name: &Name) -> Option<Code>
    ensures { result ≡ least_code (spec.codes_in (map refused_in rows.now) name.now) }
{
    let mut code = None;
    for row in rows {
        let other = code_by(*row, name);
        code = lesser(code, other);
    }
    code
}

/// The code of a name whose use is refused, unless the source defines a function of that name.
fn refused_code(name: &Name, is_defined: bool) -> Option<Code>
    ensures { (env : Env) → is_one_of env.outside.defined name.now ≡ is_defined →
        result ≡ least_code (spec.refused_codes env name.now) }
{
    if is_defined {
        None
    } else {
        code_among(&REFUSED, name)
    }
}

/// Whether it is `main`.
fn is_main(name: &Name) -> bool
    ensures { result ≡ spec.is_main name.now }
{
    "main".as_bytes() == name.bytes()
}

/// Whether it is the name of a function of the library.
pub(crate) fn is_library(name: &Name) -> bool
    ensures { result ≡ spec.is_library name.now }
{
    LibraryFunction::of(name).is_some()
}

/// Whether it is a function that `--externs` names and the source doesn't define.
pub fn is_extern(name: &Name, used: &NameUse) -> bool
    ensures { (table : Table) (env : Env) → IsUse table env name.now used.now →
        result ≡ spec.is_extern env name.now }
{
    used.is_listed && !used.is_defined && !is_library(name) && !is_main(name)
}

/// Whether a library or extern function may stand there: as the function of a call, or as a start routine.
fn may_be_library(role: Role) -> bool
    ensures { (table : Table) → result ≡ spec.may_be_library (role_in table role) }
{
    match role {
        Role::Function | Role::Routine => true,
        Role::Operand | Role::ConvertedTo(_) => false,
    }
}

/// Whether a type is a function's whose result is `void` or an integer: what an extern function may give.
fn gives_nothing_or_integer(types: &TypeTable, t: TypeId) -> bool
    requires { IsKnown types.now t }
    ensures { result ≡ holds_of (function_of (meaning types.now t)) spec.is_extern_result }
{
    match form(types, t) {
        CType::Function { result, .. } => {
            let ty = ExprType::Listed(*result);
            is_void(types, &ty) || is_integer(types, &ty)
        }
        CType::Void
        | CType::Int(_)
        | CType::ThreadId
        | CType::Mutex
        | CType::Cond
        | CType::Pointer(_)
        | CType::Array(_, _)
        | CType::Struct(_)
        | CType::Opaque(_) => false,
    }
}

/// Whether it is a library or extern function that isn't called there.
fn is_misplaced(name: &Name, used: &NameUse) -> bool
    ensures { (table : Table) (env : Env) → IsUse table env name.now used.now →
        result ≡ ((spec.is_library name.now || spec.is_extern env name.now) && not (spec.may_be_library env.role)) }
{
    (is_library(name) || is_extern(name, used)) && !may_be_library(used.role)
}

/// Whether it is an extern function of another result than `void` or an integer.
fn is_unknown(types: &TypeTable, name: &Name, used: &NameUse, t: TypeId) -> bool
    requires { IsKnown types.now t }
    ensures { (table : Table) (env : Env) → IsUse table env name.now used.now →
        result ≡ (spec.is_extern env name.now && not (holds_of (function_of (meaning types.now t)) spec.is_extern_result)) }
{
    is_extern(name, used) && !gives_nothing_or_integer(types, t)
}

/// The code of the name of a function: `Code::CallsMain` for `main`; `Code::Mismatch` for a library or extern
/// function that isn't called; `Code::UnknownExternal` for an extern function of another result.
fn function_code(types: &TypeTable, name: &Name, used: &NameUse, t: TypeId) -> Option<Code>
    requires { IsKnown types.now t }
    ensures { (env : Env) → IsUse types.now env name.now used.now →
        result ≡ least_code (spec.function_codes env name.now (meaning types.now t)) }
{
    let of_main = is_main(name);
    let out_of_place = is_misplaced(name, used);
    let of_unknown = is_unknown(types, name, used, t);
    let main = code_if(of_main, Code::CallsMain);
    let misplaced = code_if(out_of_place, Code::Mismatch);
    let unknown = code_if(of_unknown, Code::UnknownExternal);
    let first = lesser(main, misplaced);
    lesser(first, unknown)
}

/// A function by its name.
fn function_named(t: TypeId) -> Typed
    ensures { (table : Table) (n : ℕ) → IsKnown table t →
        IsTyping table result (spec.function_named (meaning table t) n) }
{
    Typed::of_type(ExprType::Listed(t))
}

/// What is no expression: `Code::Mismatch`, unless the name is refused by a lesser code.
fn no_expression(refused: Option<Code>) -> Verdict
    ensures { result ≡ told_by_row (told.lesser (Some Mismatch) refused) None }
{
    let code = lesser(Some(Code::Mismatch), refused);
    by_row(code, None)
}

/// Nothing, unless the name is refused.
fn silent_unless(refused: Option<Code>) -> Verdict
    ensures { result ≡ told_if_refused refused }
{
    match refused {
        Some(code) => Verdict::Broken(code),
        None => Verdict::Silent,
    }
}

/// `Code::Undeclared`, unless the name is refused.
fn undeclared_unless(refused: Option<Code>) -> Verdict
    ensures { result ≡ told_undeclared refused }
{
    match refused {
        Some(code) => Verdict::Broken(code),
        None => Verdict::Broken(Code::Undeclared),
    }
}

/// A name of this meaning as an expression: an object is a place, a function isn't, an enumerator is a
/// constant; a typedef name and an initialiser word are no expressions. Of a faulty declaration nothing is
/// said but that a name is refused.
fn use_of(types: &TypeTable, name: &Name, used: &NameUse, meaning: &Meaning) -> Verdict
    requires ready { IsReady types.now }
    requires known { IsKnownMeaning types.now meaning.now }
    ensures { (env : Env) (n : ℕ) → IsUse types.now env name.now used.now →
        IsVerdict types.now result (spec.use_of env name.now n (meaning_in types.now meaning.now)) }
{
    let refused = refused_code(name, used.is_defined);
    match *meaning {
        Meaning::Object(t, _) => unless(refused, place(t)),
        Meaning::Function(t) => {
            let code = function_code(types, name, used, t);
            let both = lesser(refused, code);
            unless(both, function_named(t))
        }
        Meaning::Enumerator(value) => unless(
            refused,
            Typed::integer(Kind::Int, Constant::Known(value)),
        ),
        Meaning::Typedef(_) | Meaning::InitialiserWord(_) => no_expression(refused),
        Meaning::Faulty => silent_unless(refused),
    }
}

/// A name as an expression, by its innermost declaration.
pub fn word(types: &TypeTable, name: &Name, used: &NameUse, found: Option<&Declared>) -> Verdict
    requires ready { IsReady types.now }
    requires known { IfSome found (λ d. IsKnownName types.now d.now) }
    ensures { (env : Env) → IsUse types.now env name.now used.now → IsVerdict types.now result
        (spec.use_of_declared env name.now (option_map (λ d. declared_in types.now d.now) found.entry)) }
{
    match found {
        Some(declared) => use_of(types, name, used, &declared.meaning),
        None => undeclared_unless(refused_code(name, used.is_defined)),
    }
}
