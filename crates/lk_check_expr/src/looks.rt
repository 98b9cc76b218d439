//! How an expression is written, where a rule asks for that.
ghost use Rattle.std.specs.Prelude.{◌≡◌, ◌&&◌, ◌||◌, All, Some, IfSome, map, nat_eq};
ghost use Rattle.std.specs.Option.{option_map};
ghost use Rattle.lk_types.specs.Table.{Table, IsKnown};
ghost use Rattle.lk_typed.specs.Calls.{is_routine as spec_is_routine, library_called};
ghost use Rattle.lk_typed.specs.Env.{Env};
ghost use Rattle.lk_typed.specs.ExprRules.{sizeof_look};
ghost use Rattle.lk_typed.specs.Library.{routine_type};
ghost use Rattle.lk_typed.specs.Meaning.{meaning};
ghost use Rattle.lk_typed.specs.Names.{IsKnownName, declared_in, meaning_in};
ghost use Rattle.lk_typed.specs.Ty.{are_equal_but, is_same, more, none, types_of, void_pointer};
ghost use Rattle.lk_typed.specs.Typing as typing;
ghost use Rattle.lk_typed.specs.Typing.{Judged, plain_look};
ghost use Rattle.lk_check_expr.specs.Functions.{row_of};
ghost use Rattle.lk_check_expr.specs.Looks.{IsLook, binary_look, is_address, is_multiply, paren_look, prefix_look, product_of, text_look, word_look};
ghost use Rattle.lk_check_expr.specs.NameUses.{IsUse};
ghost use Rattle.lk_check_expr.specs.Signatures.{HasKnownTypes, is_routine_signature, signature_in};

use crate::formats::is_format;
use crate::library::LibraryFunction;
use crate::signatures::{Signature, function_at};
use crate::words::{NameUse, is_extern, is_library};
use lk_tree::{BinaryOperator, PrefixOperator};
use lk_typed::{Declared, ExprType, Meaning, is_void, target_of};
use lk_types::{TypeId, TypeTable};

/// How an expression is written, where a rule asks for that.
#[derive(Clone, Copy)]
pub struct Look {
    /// The library function whose name it is, perhaps in parentheses.
    pub called: Option<LibraryFunction>,
    /// Whether it is the name of a start routine, perhaps with parentheses and `&` round it.
    pub is_routine: bool,
    /// Whether it is a string literal that is a format without `%n`.
    pub is_format: bool,
    /// Whether it is a `sizeof`.
    pub is_sizeof: bool,
    /// Whether it is a product of a `sizeof` with an operand that holds none.
    pub is_product: bool,
    /// Whether a `sizeof` stands in it.
    pub holds_sizeof: bool,
}

/// The library function of a name with this meaning.
fn called_by(d: &Declared) -> Option<LibraryFunction>
    ensures { (table : Table) → library_called (Some (declared_in table d.now)) ≡ row_of result }
{
    match d.meaning {
        Meaning::Function(_) => LibraryFunction::of(&d.name),
        Meaning::Object(_, _)
        | Meaning::Typedef(_)
        | Meaning::Enumerator(_)
        | Meaning::InitialiserWord(_)
        | Meaning::Faulty => None,
    }
}

/// Whether a type is `void *`.
fn is_anything_pointer(types: &TypeTable, t: TypeId) -> bool
    requires { IsKnown types.now t }
    ensures { result ≡ is_same (meaning types.now t) void_pointer }
{
    match target_of(types, &ExprType::Listed(t)) {
        Some(target) => is_void(types, &ExprType::Listed(target)),
        None => false,
    }
}

/// Whether the parameters are one of type `void *`.
fn are_one_pointer(types: &TypeTable, params: &[TypeId]) -> bool
    requires { All (IsKnown types.now) params.now }
    ensures { result ≡ are_equal_but nat_eq (types_of (map (meaning types.now) params.now))
        (more void_pointer none) }
{
    params.len() == 1 && is_anything_pointer(types, params[0])
}

/// Whether a signature is that of a start routine.
fn is_routine_signature(types: &TypeTable, signature: &Signature) -> bool
    requires { HasKnownTypes types.now signature.now }
    ensures { result ≡ is_routine_signature (signature_in types.now signature.now) }
{
    let result = is_anything_pointer(types, signature.result);
    let params = are_one_pointer(types, signature.params);
    result && params && !signature.dots
}

/// Whether a type is `void *(void *)`, that of start routines (POSIX, `pthread_create`).
fn is_routine_type(types: &TypeTable, t: TypeId) -> bool
    requires { IsKnown types.now t }
    ensures { result ≡ is_same (meaning types.now t) routine_type }
{
    match function_at(types, t) {
        Some(signature) => is_routine_signature(types, &signature),
        None => false,
    }
}

/// Whether it is the name of a function of the program with the type of a start routine.
fn is_routine(types: &TypeTable, d: &Declared, used: &NameUse) -> bool
    requires { IsKnownName types.now d.now }
    ensures { (env : Env) → IsUse types.now env d.now.name used.now →
        result ≡ spec_is_routine env d.now.name (meaning_in types.now d.now.meaning) }
{
    match d.meaning {
        Meaning::Function(t) => {
            is_routine_type(types, t) && !is_library(&d.name) && !is_extern(&d.name, used)
        }
        Meaning::Object(_, _)
        | Meaning::Typedef(_)
        | Meaning::Enumerator(_)
        | Meaning::InitialiserWord(_)
        | Meaning::Faulty => false,
    }
}

/// Whether the name of a routine is left behind an operator: `&` alone leaves it.
fn leaves_routine(op: PrefixOperator, is_routine: bool) -> bool
    ensures { result ≡ (is_address op && is_routine) }
{
    matches!(op, PrefixOperator::Address) && is_routine
}

/// Whether an expression is a product of a `sizeof` with something that holds none.
fn is_sizeof_product(a: &Look, b: &Look) -> bool
    ensures { result ≡ product_of a.now b.now }
{
    a.is_sizeof && !b.holds_sizeof || b.is_sizeof && !a.holds_sizeof
}

/// Whether a `sizeof` stands in one of two operands.
fn holds_sizeof(a: &Look, b: &Look) -> bool
    ensures { result ≡ (a.now.holds_sizeof || b.now.holds_sizeof) }
{
    a.holds_sizeof || b.holds_sizeof
}

/// Whether an operator makes such a product.
fn makes_product(op: BinaryOperator, a: &Look, b: &Look) -> bool
    ensures { result ≡ (is_multiply op && product_of a.now b.now) }
{
    matches!(op, BinaryOperator::Multiply) && is_sizeof_product(a, b)
}

impl Look {
    /// An expression of which nothing is asked but whether a `sizeof` stands in it.
    pub fn plain(holds_sizeof: bool) -> Look
        ensures { (env : Env) → IsLook env result (plain_look holds_sizeof) }
    {
        Look {
            called: None,
            is_routine: false,
            is_format: false,
            is_sizeof: false,
            is_product: false,
            holds_sizeof,
        }
    }

    /// A `sizeof`.
    pub fn sizeof() -> Look
        ensures { (env : Env) → IsLook env result sizeof_look }
    {
        let mut look = Look::plain(true);
        look.is_sizeof = true;
        look
    }

    /// A string literal of these bytes.
    pub fn text(bytes: &[u8]) -> Look
        ensures { (env : Env) → IsLook env result (text_look bytes.now) }
    {
        let mut look = Look::plain(false);
        look.is_format = is_format(bytes);
        look
    }

    /// A name, by its innermost declaration.
    pub fn word(types: &TypeTable, used: &NameUse, found: Option<&Declared>) -> Look
        requires { IfSome found (λ d. IsKnownName types.now d.now) }
        ensures { (env : Env) → IfSome found.entry (λ d. IsUse types.now env d.now.name used.now) →
            IsLook env result (word_look (option_map (λ d. declared_in types.now d.now) found.entry)) }
    {
        match found {
            Some(declared) => Look::declared(types, used, declared),
            None => Look::plain(false),
        }
    }

    /// A name with this declaration.
    fn declared(types: &TypeTable, used: &NameUse, d: &Declared) -> Look
        requires { IsKnownName types.now d.now }
        ensures { (env : Env) → IsUse types.now env d.now.name used.now →
            IsLook env result (word_look (Some (declared_in types.now d.now))) }
    {
        let mut look = Look::plain(false);
        look.called = called_by(d);
        look.is_routine = is_routine(types, d, used);
        look
    }

    /// An expression in parentheses: it is still the name that it was.
    pub fn in_parentheses(self) -> Look
        ensures { (env : Env) (x : typing.Look) → IsLook env self x → IsLook env result (paren_look x) }
    {
        let mut look = Look::plain(self.holds_sizeof);
        look.called = self.called;
        look.is_routine = self.is_routine;
        look
    }

    /// An operator before an operand: `&` alone leaves the name of a routine.
    pub fn behind_prefix(self, op: PrefixOperator) -> Look
        ensures { (env : Env) (x : typing.Look) → IsLook env self x → IsLook env result (prefix_look op x) }
    {
        let mut look = Look::plain(self.holds_sizeof);
        look.is_routine = leaves_routine(op, self.is_routine);
        look
    }

    /// An operator between two operands.
    pub fn binary(op: BinaryOperator, a: &Look, b: &Look) -> Look
        ensures { (env : Env) (x y : Judged) → IsLook env a.now x.look → IsLook env b.now y.look →
            IsLook env result (binary_look op x y) }
    {
        let mut look = Look::plain(holds_sizeof(a, b));
        look.is_product = makes_product(op, a, b);
        look
    }
}
