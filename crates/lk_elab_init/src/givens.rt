//! What an initialiser gives to the parts of an object, in the order of the entries (C99 6.7.8, 10 to 22).
ghost use Rattle.std.specs.Prelude.{◌≡◌, ◌++◌, ◌∷◌, [], IfOk, List, OnOk, Some, nat_eq, ℕ};
ghost use Rattle.std.specs.Map.{lookup};
ghost use Rattle.lk_tree.specs.declared.declaration.InitList.{out-InitList};
ghost use Rattle.lk_types.specs.Table.{IsKnown};
ghost use Rattle.lk_typed.specs.Expressions.{AText, written};
ghost use Rattle.lk_typed.specs.Initialised.{bytes_given};
ghost use Rattle.lk_typed.specs.InitialiserRules.{is_text_for};
ghost use Rattle.lk_typed.specs.Initialisers.{text_alone};
ghost use Rattle.lk_typed.specs.Meaning.{meaning};
ghost use Rattle.lk_found.specs.declared.records.InitialiserKind.{InitialiserKind};
ghost use Rattle.lk_found.specs.declared.records.InitialiserKind.TheVariants as kind;
ghost use Rattle.lk_elab_init.specs.Giving.{GivesTo, GivesToEntries, GivesToEntry, GivesToExpr};
ghost use Rattle.lk_elab_init.specs.Giving.{GivesToList, GivesToText, Puts, part_given};
ghost use Rattle.lk_elab_init.specs.Words.{is_word_kind};
ghost use Rattle.lk_elab_init.specs.declared.givens.Beginning.TheVariants as begins;

use crate::paths::{longer_path, path_of};
use crate::type_forms::{count_at, part_at};
use lk_base::{CellStep, NoMemory, Seq, Spot};
use lk_check_decl::{braces_of, is_text_for};
use lk_elaborator::{Elaborator, known, nowhere};
use lk_found::InitialiserKind;
use lk_tree::{Entry, Expr, ExprForm, Init, InitList};
use lk_types::TypeId;
use std::alloc::Global;

/// What a part begins with.
#[derive(Drop)]
pub enum Beginning<'a> {
    /// The value of an expression, converted to the part's type.
    Value(&'a Expr),
    /// The bytes of the literal at a node: they go to the elements of the part, an array, from its first on.
    Bytes(Spot, u32, Seq<u8>),
    /// The state of an initialiser word (POSIX, `pthread_mutex_init`).
    Word,
}

/// A part that an initialiser names: a scalar, a mutex or condition variable, or an
/// array that a text initialises.
#[derive(Drop)]
pub struct PartGiven<'a> {
    pub path: Seq<CellStep>,
    pub ty: TypeId,
    pub begins: Beginning<'a>,
}

/// The bytes of the literal that an expression is. What initialises an array without braces is one: any other
/// expression is refused with `Code::Mismatch`, or inside braces with `Code::BadInitialiser`.
fn bytes_in(e: &Expr) -> Result<&[u8], NoMemory>
    ensures { IfOk result (λ bytes. written e.now ≡ AText bytes.now) }
{
    match &e.form {
        ExprForm::Text(bytes) => Ok(bytes.list()),
        ExprForm::Comma(..)
        | ExprForm::Assign(..)
        | ExprForm::Choice(..)
        | ExprForm::Binary(..)
        | ExprForm::Cast(..)
        | ExprForm::Pre(..)
        | ExprForm::Prefix(..)
        | ExprForm::SizeofExpr(_)
        | ExprForm::SizeofType(_)
        | ExprForm::Index(..)
        | ExprForm::Call(..)
        | ExprForm::Member(..)
        | ExprForm::Arrow(..)
        | ExprForm::Post(..)
        | ExprForm::Word(_)
        | ExprForm::Number(..)
        | ExprForm::Char(_)
        | ExprForm::Paren(_) => Err(nowhere()),
    }
}

/// The bytes of a literal, with a zero behind them where the array has room (C99 6.7.8, 14).
fn bytes_given(alloc: Global, count: u64, bytes: &[u8]) -> Result<Seq<u8>, NoMemory>
    ensures { IfOk result (λ given. given ≡ bytes_given count bytes.now) }
{
    let mut given = Vec::from_slice(alloc, bytes)?;
    if (bytes.len() as u64) < count {
        given.push(0)?;
    }
    Ok(Seq::new(given))
}

/// The bytes of the literal that an expression is, which initialises an array of so many elements.
fn text_bytes(alloc: Global, count: u64, e: &Expr) -> Result<Seq<u8>, NoMemory>
    ensures { IfOk result (λ given. (bytes : List ℕ)
        × (written e.now ≡ AText bytes) × (given ≡ bytes_given count bytes)) }
{
    let bytes = bytes_in(e)?;
    bytes_given(alloc, count, bytes)
}

/// Whether the initialiser at a node is an initialiser word (POSIX, `pthread.h`). Each
/// that is one expression was seen.
fn is_word(walk: &Elaborator, ordinal: u32) -> Result<bool, NoMemory>
    ensures { IfOk result (λ is. (kind : InitialiserKind)
        × (lookup (nat_eq ordinal) walk.now.records.initialisers ≡ Some kind) × (is ≡ is_word_kind kind)) }
{
    match walk.records.initialiser(ordinal) {
        Some(InitialiserKind::Word(_)) => Ok(true),
        Some(InitialiserKind::Value) => Ok(false),
        None => Err(nowhere()),
    }
}

/// Puts an array of so many elements that a text initialises.
fn put_text<'a>(
    alloc: Global,
    ty: TypeId,
    path: &[CellStep],
    e: &'a Expr,
    count: u64,
    out: &mut Vec<PartGiven<'a>>,
) -> Result<(), NoMemory>
    ensures { OnOk result ((bytes : List ℕ) × (written e.now ≡ AText bytes)
        × (out.new.items ≡ out.old.items
        ++ part_given path.now ty (begins.Bytes e.now.spot e.now.ordinal (bytes_given count bytes)) ∷ [])) }
{
    let bytes = text_bytes(alloc, count, e)?;
    put_part(
        alloc,
        ty,
        path,
        Beginning::Bytes(e.spot, e.ordinal, bytes),
        out,
    )
}

/// Puts a part that an expression, or an initialiser word, initialises.
fn put_part<'a>(
    alloc: Global,
    ty: TypeId,
    path: &[CellStep],
    begins: Beginning<'a>,
    out: &mut Vec<PartGiven<'a>>,
) -> Result<(), NoMemory>
    ensures { OnOk result (out.new.items ≡ out.old.items ++ part_given path.now ty begins.entry ∷ []) }
{
    let path = path_of(alloc, path)?;
    out.push(PartGiven { path, ty, begins })?;
    Ok(())
}

/// Puts the part that an expression initialises.
fn put_value<'a>(
    walk: &Elaborator,
    ty: TypeId,
    path: &[CellStep],
    e: &'a Expr,
    out: &mut Vec<PartGiven<'a>>,
) -> Result<(), NoMemory>
    requires { lookup (nat_eq e.now.ordinal) walk.now.records.initialisers ≡ Some kind.Value }
    ensures { OnOk result (Puts out.old.items out.new.items (GivesToExpr walk.now ty path.now e.now)) }
{
    match count_at(walk.types.table(), ty)? {
        Some(count) => put_text(walk.alloc, ty, path, e, count, out),
        None => put_part(walk.alloc, ty, path, Beginning::Value(e), out),
    }
}

/// Puts the part that an initialiser word initialises.
fn put_word<'a>(
    walk: &Elaborator,
    ty: TypeId,
    path: &[CellStep],
    out: &mut Vec<PartGiven<'a>>,
) -> Result<(), NoMemory>
    ensures known { OnOk result (IsKnown walk.now.types ty) }
    ensures part { OnOk result (out.new.items ≡ out.old.items ++ part_given path.now ty begins.Word ∷ []) }
{
    let ty = known(walk.types.table(), ty)?;
    put_part(walk.alloc, ty, path, Beginning::Word, out)
}

/// The part that an expression, or an initialiser word, initialises.
fn given_by_expression<'a>(
    walk: &Elaborator,
    ty: TypeId,
    path: &[CellStep],
    e: &'a Expr,
    out: &mut Vec<PartGiven<'a>>,
) -> Result<(), NoMemory>
    ensures { OnOk result (Puts out.old.items out.new.items (GivesToExpr walk.now ty path.now e.now)) }
{
    if is_word(walk, e.ordinal)? {
        put_word(walk, ty, path, out)
    } else {
        put_value(walk, ty, path, e, out)
    }
}

/// The parts that the entry with this number of a list initialises.
#[cycle(given)]
fn given_by_entry<'a>(
    walk: &Elaborator,
    ty: TypeId,
    path: &[CellStep],
    number: u32,
    entry: &'a Entry,
    out: &mut Vec<PartGiven<'a>>,
) -> Result<(), NoMemory>
    ensures { OnOk result (Puts out.old.items out.new.items
        (GivesToEntry walk.now ty path.now number entry.now)) }
{
    if !entry.designators.list().is_empty() {
        return Err(nowhere());
    }
    let part = part_at(walk.types.table(), ty, number)?;
    let inner = longer_path(walk.alloc, path, part.step)?;
    given(walk, part.ty, inner.list(), &entry.init, out)
}

/// The parts that the entries of a list initialise (`AreGivenByEntries`).
#[cycle(given)]
fn given_by_entries<'a>(
    walk: &Elaborator,
    ty: TypeId,
    path: &[CellStep],
    entries: &'a [Entry],
    out: &mut Vec<PartGiven<'a>>,
) -> Result<(), NoMemory>
    ensures { OnOk result (Puts out.old.items out.new.items
        (GivesToEntries walk.now ty path.now entries.now)) }
{
    let mut number: u32 = 0;
    for entry in entries {
        given_by_entry(walk, ty, path, number, entry, out)?;
        let Some(next) = number.checked_add(1) else {
            return Err(NoMemory);
        };
        number = next;
    }
    Ok(())
}

/// Whether a list is a text alone that initialises an object of this type, as the text would
/// without the braces (C99 6.7.8, 14).
fn is_braced_text(walk: &Elaborator, ty: TypeId, list: &InitList) -> Result<bool, NoMemory>
    ensures { IfOk result (λ is.
        is ≡ is_text_for (meaning walk.now.types ty) (text_alone (out-InitList list.now).entries)) }
{
    let ty = known(walk.types.table(), ty)?;
    let braces = braces_of(list)?;
    Ok(is_text_for(walk.types.table(), ty, braces.text))
}

/// The parts that a text in braces initialises, which is all of its list.
#[cycle(given)]
fn given_by_text<'a>(
    walk: &Elaborator,
    ty: TypeId,
    path: &[CellStep],
    entries: &'a [Entry],
    out: &mut Vec<PartGiven<'a>>,
) -> Result<(), NoMemory>
    ensures { OnOk result (Puts out.old.items out.new.items (GivesToText walk.now ty path.now entries.now)) }
{
    if entries.is_empty() || !entries[0].designators.list().is_empty() {
        return Err(nowhere());
    }
    given(walk, ty, path, &entries[0].init, out)
}

/// The parts that a list in braces initialises; a text that is all of it initialises the array itself.
#[cycle(given)]
fn given_by_list<'a>(
    walk: &Elaborator,
    ty: TypeId,
    path: &[CellStep],
    list: &'a InitList,
    out: &mut Vec<PartGiven<'a>>,
) -> Result<(), NoMemory>
    ensures { OnOk result (Puts out.old.items out.new.items (GivesToList walk.now ty path.now list.now)) }
{
    if is_braced_text(walk, ty, list)? {
        given_by_text(walk, ty, path, list.entries.list(), out)
    } else {
        given_by_entries(walk, ty, path, list.entries.list(), out)
    }
}

/// The parts of an object of this type, to which the path leads, that its initialiser names (`AreGiven`).
#[cycle(given)]
fn given<'a>(
    walk: &Elaborator,
    ty: TypeId,
    path: &[CellStep],
    init: &'a Init,
    out: &mut Vec<PartGiven<'a>>,
) -> Result<(), NoMemory>
    ensures { OnOk result (Puts out.old.items out.new.items (GivesTo walk.now ty path.now init.now)) }
{
    match init {
        Init::Expr(e) => given_by_expression(walk, ty, path, e, out),
        Init::List(list) => given_by_list(walk, ty, path, list, out),
    }
}

/// Puts the parts of an object of this type that its initialiser names.
pub fn put_given<'a>(
    walk: &Elaborator,
    ty: TypeId,
    init: &'a Init,
    out: &mut Vec<PartGiven<'a>>,
) -> Result<(), NoMemory>
    ensures { OnOk result (Puts out.old.items out.new.items (GivesTo walk.now ty [] init.now)) }
{
    let whole = path_of(walk.alloc, &[])?;
    given(walk, ty, whole.list(), init, out)
}
