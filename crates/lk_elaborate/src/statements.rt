//! Statements (C99 6.8).
//!
//! An expression declares nothing, so the value of a statement may be made behind the statements in it.
ghost use Rattle.std.specs.Prelude.{◌≡◌, [], IfOk, OnOk};
ghost use Rattle.lk_tree.specs.declared.statement.BlockItem.TheOpen.{StmtForm-F};
ghost use Rattle.lk_tree.specs.declared.statement.StmtForm.{out-StmtForm};
ghost use Rattle.lk_typed.specs.Meaning.{IsKnownType};
ghost use Rattle.lk_typed.specs.declared.statement.TypedStmtForm.{out-TypedStmtForm};
ghost use Rattle.lk_typed.specs.declared.statement.TypedItem.TheOpen.{TypedStmtForm-F};
ghost use Rattle.lk_elaborator.specs.Known.{OfEach};
ghost use Rattle.lk_elaborator.specs.Leading.{Grows, GoesOn};
ghost use Rattle.lk_elaborate.specs.Asking.{HasPromoted};
ghost use Rattle.lk_elaborate.specs.Making.{FindsSwitch, IsKindOf, MakesElse, MakesFirst, MakesForm};
ghost use Rattle.lk_elaborate.specs.Making.{MakesGiven, MakesHead, MakesIf, MakesItem, MakesItems};
ghost use Rattle.lk_elaborate.specs.Making.{MakesPerhaps, MakesStatement, MakesSwitched, MakesValue};
ghost use Rattle.lk_elaborate.specs.PuttingStatements.{PutsElse, PutsFirst, PutsForm};
ghost use Rattle.lk_elaborate.specs.PuttingStatements.{PutsItem, PutsItems, PutsStatement};

use crate::cases::{Cases, cases_of};
use crate::declarations::block_declaration;
use crate::labels::label_named;
use lk_base::{Boxed, Kind, Name, NoMemory, Seq};
use lk_elab_expr::{expression, given_value, promoted_type};
use lk_elaborator::{Elaborator, converted, value_at, value_node};
use lk_labels::Labels;
use lk_tree::{BlockItem, Expr, ForFirst, Stmt, StmtForm};
use lk_typed::{ExprType, TypedExpr, TypedFirst, TypedItem, TypedStmt, TypedStmtForm, kind_of};
use lk_types::TypeId;
use std::alloc::Global;

/// What stands round a statement.
#[derive(Drop)]
pub(crate) struct Around {
    /// The labels of the function.
    pub(crate) labels: Labels,
    /// The result of the function.
    pub(crate) returned: TypeId,
}

/// The head of a `for`: each part in a box, until the statement is whole.
#[derive(Drop)]
struct ForHead {
    first: Boxed<TypedFirst>,
    test: Boxed<Option<TypedExpr>>,
    step: Boxed<Option<TypedExpr>>,
}

/// The value of an expression of a statement.
fn statement_value(walk: &mut Elaborator, e: &Expr) -> Result<TypedExpr, NoMemory>
    ensures makes { IfOk result (MakesValue walk.old walk.new e.now) }
    ensures grows { OnOk result (Grows walk.old walk.new) }
{
    let node = expression(walk, e, false)?;
    let value = value_node(walk, node)?;
    Ok(value)
}

/// The same of one that may be missing (`IsPerhaps`).
fn value_if_any(walk: &mut Elaborator, e: &Option<Expr>) -> Result<Option<TypedExpr>, NoMemory>
    ensures makes { IfOk result (MakesPerhaps walk.old walk.new e.now) }
    ensures grows { OnOk result (Grows walk.old walk.new) }
{
    match e {
        Some(e) => Ok(Some(statement_value(walk, e)?)),
        None => Ok(None),
    }
}

/// The type to which the value of a `switch` is promoted (C99 6.8.4.2, 5).
fn switch_type(walk: &Elaborator, ordinal: u32) -> Result<ExprType, NoMemory>
    ensures known { IfOk result (IsKnownType walk.now.types) }
    ensures value { IfOk result (λ target. OfEach walk.now ordinal (HasPromoted walk.now.types target)) }
{
    let value = value_at(walk, ordinal)?;
    Ok(promoted_type(walk.types.table(), &value.ty))
}

/// The value of a `switch`, which is promoted.
fn switch_value(walk: &mut Elaborator, e: &Expr) -> Result<TypedExpr, NoMemory>
    ensures makes { IfOk result (MakesSwitched walk.old walk.new e.now) }
    ensures grows { OnOk result (Grows walk.old walk.new) }
{
    let target = switch_type(walk, e.ordinal)?;
    let node = expression(walk, e, false)?;
    let value = converted(walk, node, &target)?;
    Ok(value)
}

/// The kind of the value of a `switch`.
fn switch_kind(walk: &Elaborator, e: &Expr) -> Result<Option<Kind>, NoMemory>
    ensures { IfOk result (IsKindOf walk.now e.now) }
{
    let value = value_at(walk, e.ordinal)?;
    Ok(kind_of(walk.types.table(), &value.ty))
}

/// The cases of a `switch` with this value, which stand in this statement.
fn switch_cases(walk: &Elaborator, e: &Expr, inner: &Stmt) -> Result<Cases, NoMemory>
    ensures { IfOk result (FindsSwitch walk.now e.now inner.now) }
{
    let kind = switch_kind(walk, e)?;
    let cases = cases_of(walk, kind, inner)?;
    Ok(cases)
}

/// The first part of a `for` (`IsFirst`).
fn first_part(walk: &mut Elaborator, first: &ForFirst) -> Result<TypedFirst, NoMemory>
    ensures makes { IfOk result (MakesFirst walk.old walk.new first.now) }
    ensures puts { OnOk result (PutsFirst walk.old walk.new first.now) }
    ensures goes_on { OnOk result (GoesOn walk.old walk.new) }
{
    match first {
        ForFirst::Expr(e) => {
            let value = value_if_any(walk, e)?;
            Ok(TypedFirst::Expr(value))
        }
        ForFirst::Declare(node) => {
            let inits = block_declaration(walk, node)?;
            Ok(TypedFirst::Declare(inits))
        }
    }
}

/// The first part of a `for`, in a box.
fn boxed_first(walk: &mut Elaborator, first: &ForFirst) -> Result<Boxed<TypedFirst>, NoMemory>
    ensures makes { IfOk result (MakesFirst walk.old walk.new first.now) }
    ensures puts { OnOk result (PutsFirst walk.old walk.new first.now) }
    ensures goes_on { OnOk result (GoesOn walk.old walk.new) }
{
    let first = first_part(walk, first)?;
    let first = Boxed::new(walk.alloc, first)?;
    Ok(first)
}

/// The value of an expression that may be missing, in a box.
fn boxed_value(
    walk: &mut Elaborator,
    e: &Option<Expr>,
) -> Result<Boxed<Option<TypedExpr>>, NoMemory>
    ensures makes { IfOk result (MakesPerhaps walk.old walk.new e.now) }
    ensures grows { OnOk result (Grows walk.old walk.new) }
{
    let value = value_if_any(walk, e)?;
    let value = Boxed::new(walk.alloc, value)?;
    Ok(value)
}

/// The head of a `for`. Its first part comes first, which may declare what the others name.
fn for_head(
    walk: &mut Elaborator,
    first: &ForFirst,
    test: &Option<Expr>,
    step: &Option<Expr>,
) -> Result<ForHead, NoMemory>
    ensures makes { IfOk result (λ head.
        MakesHead walk.old walk.new first.now test.now step.now head.first head.test head.step) }
    ensures puts { OnOk result (PutsFirst walk.old walk.new first.now) }
    ensures goes_on { OnOk result (GoesOn walk.old walk.new) }
{
    let first = boxed_first(walk, first)?;
    let test = boxed_value(walk, test)?;
    let step = boxed_value(walk, step)?;
    Ok(ForHead { first, test, step })
}

/// The value that a `return` gives, which is converted to the function's result (C99 6.8.6.4, 3).
fn returned_value(walk: &mut Elaborator, e: &Expr, t: TypeId) -> Result<TypedExpr, NoMemory>
    ensures makes { IfOk result (MakesGiven walk.old walk.new e.now t) }
    ensures grows { OnOk result (Grows walk.old walk.new) }
{
    let value = given_value(walk, e, &ExprType::Listed(t), false)?;
    Ok(value)
}

/// A `return`.
fn returning(
    walk: &mut Elaborator,
    e: &Option<Expr>,
    around: &Around,
) -> Result<TypedStmtForm, NoMemory>
    ensures makes { IfOk result (λ form.
        MakesForm walk.old walk.new around.now (StmtForm-F.Return e.now) (out-TypedStmtForm form)) }
    ensures puts { OnOk result (PutsForm walk.old walk.new (StmtForm-F.Return e.now)) }
    ensures goes_on { OnOk result (GoesOn walk.old walk.new) }
{
    match e {
        Some(e) => {
            let value = returned_value(walk, e, around.returned)?;
            Ok(TypedStmtForm::Return(Some(value)))
        }
        None => Ok(TypedStmtForm::Return(None)),
    }
}

/// A statement as a part of another one.
#[cycle(statements)]
fn statement_part(
    walk: &mut Elaborator,
    s: &Stmt,
    around: &Around,
) -> Result<Boxed<TypedStmt>, NoMemory>
    ensures makes { IfOk result (MakesStatement walk.old walk.new around.now s.now) }
    ensures puts { OnOk result (PutsStatement walk.old walk.new s.now) }
    ensures goes_on { OnOk result (GoesOn walk.old walk.new) }
{
    let made = statement(walk, s, around)?;
    let made = Boxed::new(walk.alloc, made)?;
    Ok(made)
}

/// The same of one that may be missing (`IsElse`).
#[cycle(statements)]
fn part_if_any(
    walk: &mut Elaborator,
    s: &Option<Boxed<Stmt>>,
    around: &Around,
) -> Result<Option<Boxed<TypedStmt>>, NoMemory>
    ensures makes { IfOk result (MakesElse walk.old walk.new around.now s.now) }
    ensures puts { OnOk result (PutsElse walk.old walk.new s.now) }
    ensures goes_on { OnOk result (GoesOn walk.old walk.new) }
{
    match s {
        Some(s) => {
            let made = statement_part(walk, s.get(), around)?;
            Ok(Some(made))
        }
        None => Ok(None),
    }
}

/// An item of a block.
#[cycle(statements)]
fn block_item(
    walk: &mut Elaborator,
    item: &BlockItem,
    around: &Around,
) -> Result<TypedItem, NoMemory>
    ensures makes { IfOk result (MakesItem walk.old walk.new around.now item.now) }
    ensures puts { OnOk result (PutsItem walk.old walk.new item.now) }
    ensures goes_on { OnOk result (GoesOn walk.old walk.new) }
{
    match item {
        BlockItem::Declare(node) => {
            let inits = block_declaration(walk, node)?;
            Ok(TypedItem::Declare(inits))
        }
        BlockItem::Stmt(inner) => {
            let made = statement(walk, inner, around)?;
            Ok(TypedItem::Stmt(made))
        }
    }
}

/// No item.
fn no_items(alloc: Global) -> Seq<TypedItem>
    ensures { result ≡ [] }
{
    Seq::new(Vec::new(alloc))
}

/// The items of a block (`AreItems`).
#[cycle(statements)]
pub(crate) fn block_items(
    walk: &mut Elaborator,
    items: &[BlockItem],
    around: &Around,
) -> Result<Seq<TypedItem>, NoMemory>
    ensures makes { IfOk result (MakesItems walk.old walk.new around.now items.now) }
    ensures puts { OnOk result (PutsItems walk.old walk.new items.now) }
    ensures goes_on { OnOk result (GoesOn walk.old walk.new) }
{
    let mut made = no_items(walk.alloc);
    for item in items {
        let item = block_item(walk, item, around)?;
        made.push(item)?;
    }
    Ok(made)
}

/// An `if` of these parts (C99 6.8.4.1).
fn if_form(
    walk: &mut Elaborator,
    e: &Expr,
    taken: Boxed<TypedStmt>,
    other: Option<Boxed<TypedStmt>>,
) -> Result<TypedStmtForm, NoMemory>
    ensures makes { IfOk result (λ form.
        MakesIf walk.old walk.new e.now taken other (out-TypedStmtForm form)) }
    ensures grows { OnOk result (Grows walk.old walk.new) }
{
    let condition = statement_value(walk, e)?;
    Ok(TypedStmtForm::If(condition, taken, other))
}

/// A `switch` with these cases.
fn switch_form(value: TypedExpr, found: Cases, inner: Boxed<TypedStmt>) -> TypedStmtForm
    ensures { out-TypedStmtForm result ≡ TypedStmtForm-F.Switch value found.cases found.default inner }
{
    let Cases { cases, default } = found;
    TypedStmtForm::Switch(value, cases, default, inner)
}

/// A `switch` (C99 6.8.4.2).
#[cycle(statements)]
fn switch_statement(
    walk: &mut Elaborator,
    inner: &Stmt,
    e: &Expr,
    around: &Around,
) -> Result<TypedStmtForm, NoMemory>
    ensures makes { IfOk result (λ form. MakesForm walk.old walk.new around.now
        (StmtForm-F.Switch e.now inner.now) (out-TypedStmtForm form)) }
    ensures puts { OnOk result (PutsForm walk.old walk.new (StmtForm-F.Switch e.now inner.now)) }
    ensures goes_on { OnOk result (GoesOn walk.old walk.new) }
{
    let found = switch_cases(walk, e, inner)?;
    let inner = statement_part(walk, inner, around)?;
    let value = switch_value(walk, e)?;
    Ok(switch_form(value, found, inner))
}

/// A `while` (C99 6.8.5.1).
#[cycle(statements)]
fn while_loop(
    walk: &mut Elaborator,
    inner: &Stmt,
    e: &Expr,
    around: &Around,
) -> Result<TypedStmtForm, NoMemory>
    ensures makes { IfOk result (λ form. MakesForm walk.old walk.new around.now
        (StmtForm-F.While e.now inner.now) (out-TypedStmtForm form)) }
    ensures puts { OnOk result (PutsForm walk.old walk.new (StmtForm-F.While e.now inner.now)) }
    ensures goes_on { OnOk result (GoesOn walk.old walk.new) }
{
    let inner = statement_part(walk, inner, around)?;
    let condition = statement_value(walk, e)?;
    Ok(TypedStmtForm::While(condition, inner))
}

/// A `do` (C99 6.8.5.2).
#[cycle(statements)]
fn until_loop(
    walk: &mut Elaborator,
    inner: &Stmt,
    e: &Expr,
    around: &Around,
) -> Result<TypedStmtForm, NoMemory>
    ensures makes { IfOk result (λ form. MakesForm walk.old walk.new around.now
        (StmtForm-F.Until inner.now e.now) (out-TypedStmtForm form)) }
    ensures puts { OnOk result (PutsForm walk.old walk.new (StmtForm-F.Until inner.now e.now)) }
    ensures goes_on { OnOk result (GoesOn walk.old walk.new) }
{
    let inner = statement_part(walk, inner, around)?;
    let condition = statement_value(walk, e)?;
    Ok(TypedStmtForm::Until(inner, condition))
}

/// A `for` with this head.
fn for_form(head: ForHead, inner: Boxed<TypedStmt>) -> TypedStmtForm
    ensures { out-TypedStmtForm result ≡ TypedStmtForm-F.For head.first head.test head.step inner }
{
    let ForHead { first, test, step } = head;
    TypedStmtForm::For(
        first.into_inner(),
        test.into_inner(),
        step.into_inner(),
        inner,
    )
}

/// A `for` (C99 6.8.5.3).
#[cycle(statements)]
fn for_loop(
    walk: &mut Elaborator,
    inner: &Stmt,
    first: &ForFirst,
    test: &Option<Expr>,
    step: &Option<Expr>,
    around: &Around,
) -> Result<TypedStmtForm, NoMemory>
    ensures makes { IfOk result (λ form. MakesForm walk.old walk.new around.now
        (StmtForm-F.For first.now test.now step.now inner.now) (out-TypedStmtForm form)) }
    ensures puts { OnOk result (
        PutsForm walk.old walk.new (StmtForm-F.For first.now test.now step.now inner.now)) }
    ensures goes_on { OnOk result (GoesOn walk.old walk.new) }
{
    let head = for_head(walk, first, test, step)?;
    let inner = statement_part(walk, inner, around)?;
    Ok(for_form(head, inner))
}

/// A `case` (C99 6.8.1).
#[cycle(statements)]
fn case(
    walk: &mut Elaborator,
    inner: &Stmt,
    e: &Expr,
    around: &Around,
) -> Result<TypedStmtForm, NoMemory>
    ensures makes { IfOk result (λ form. MakesForm walk.old walk.new around.now
        (StmtForm-F.Case e.now inner.now) (out-TypedStmtForm form)) }
    ensures puts { OnOk result (PutsForm walk.old walk.new (StmtForm-F.Case e.now inner.now)) }
    ensures goes_on { OnOk result (GoesOn walk.old walk.new) }
{
    let _e = e;
    let inner = statement_part(walk, inner, around)?;
    Ok(TypedStmtForm::Case(inner))
}

/// A `default` (C99 6.8.1).
#[cycle(statements)]
fn default_case(
    walk: &mut Elaborator,
    inner: &Stmt,
    around: &Around,
) -> Result<TypedStmtForm, NoMemory>
    ensures makes { IfOk result (λ form. MakesForm walk.old walk.new around.now
        (StmtForm-F.Default inner.now) (out-TypedStmtForm form)) }
    ensures puts { OnOk result (PutsForm walk.old walk.new (StmtForm-F.Default inner.now)) }
    ensures goes_on { OnOk result (GoesOn walk.old walk.new) }
{
    let inner = statement_part(walk, inner, around)?;
    Ok(TypedStmtForm::Default(inner))
}

/// A labelled statement (C99 6.8.1).
#[cycle(statements)]
fn labelled(
    walk: &mut Elaborator,
    inner: &Stmt,
    name: &Name,
    around: &Around,
) -> Result<TypedStmtForm, NoMemory>
    ensures makes { IfOk result (λ form. MakesForm walk.old walk.new around.now
        (StmtForm-F.Label name.now inner.now) (out-TypedStmtForm form)) }
    ensures puts { OnOk result (PutsForm walk.old walk.new (StmtForm-F.Label name.now inner.now)) }
    ensures goes_on { OnOk result (GoesOn walk.old walk.new) }
{
    let _name = name;
    let inner = statement_part(walk, inner, around)?;
    Ok(TypedStmtForm::Label(inner))
}

/// A block (C99 6.8.2).
#[cycle(statements)]
fn block(
    walk: &mut Elaborator,
    items: &[BlockItem],
    around: &Around,
) -> Result<TypedStmtForm, NoMemory>
    ensures makes { IfOk result (λ form. MakesForm walk.old walk.new around.now
        (StmtForm-F.Block items.now) (out-TypedStmtForm form)) }
    ensures puts { OnOk result (PutsForm walk.old walk.new (StmtForm-F.Block items.now)) }
    ensures goes_on { OnOk result (GoesOn walk.old walk.new) }
{
    let items = block_items(walk, items, around)?;
    Ok(TypedStmtForm::Block(items))
}

/// An expression statement (C99 6.8.3).
fn dropped(
    walk: &mut Elaborator,
    e: &Option<Expr>,
    around: &Around,
) -> Result<TypedStmtForm, NoMemory>
    ensures makes { IfOk result (λ form. MakesForm walk.old walk.new around.now
        (StmtForm-F.Do e.now) (out-TypedStmtForm form)) }
    ensures puts { OnOk result (PutsForm walk.old walk.new (StmtForm-F.Do e.now)) }
    ensures goes_on { OnOk result (GoesOn walk.old walk.new) }
{
    let _around = around;
    let value = value_if_any(walk, e)?;
    Ok(TypedStmtForm::Do(value))
}

/// A `goto` (C99 6.8.6.1).
fn going(walk: &mut Elaborator, name: &Name, around: &Around) -> Result<TypedStmtForm, NoMemory>
    ensures makes { IfOk result (λ form. MakesForm walk.old walk.new around.now
        (StmtForm-F.Goto name.now) (out-TypedStmtForm form)) }
    ensures puts { OnOk result (PutsForm walk.old walk.new (StmtForm-F.Goto name.now)) }
    ensures goes_on { OnOk result (GoesOn walk.old walk.new) }
{
    let _walk = walk;
    let label = label_named(&around.labels, name)?;
    Ok(TypedStmtForm::Goto(label))
}

/// What a statement is made of.
#[cycle(statements)]
fn statement_form(
    walk: &mut Elaborator,
    s: &Stmt,
    around: &Around,
) -> Result<TypedStmtForm, NoMemory>
    ensures makes { IfOk result (λ form. MakesForm walk.old walk.new around.now
        (out-StmtForm s.now.form) (out-TypedStmtForm form)) }
    ensures puts { OnOk result (PutsForm walk.old walk.new (out-StmtForm s.now.form)) }
    ensures goes_on { OnOk result (GoesOn walk.old walk.new) }
{
    match &s.form {
        StmtForm::Label(name, inner) => labelled(walk, inner.get(), name, around),
        StmtForm::Case(e, inner) => case(walk, inner.get(), e, around),
        StmtForm::Default(inner) => default_case(walk, inner.get(), around),
        StmtForm::Block(items) => block(walk, items.list(), around),
        StmtForm::Do(e) => dropped(walk, e, around),
        StmtForm::If(e, taken, other) => {
            let taken = statement_part(walk, taken.get(), around)?;
            let other = part_if_any(walk, other, around)?;
            let form = if_form(walk, e, taken, other)?;
            Ok(form)
        }
        StmtForm::Switch(e, inner) => switch_statement(walk, inner.get(), e, around),
        StmtForm::While(e, inner) => while_loop(walk, inner.get(), e, around),
        StmtForm::Until(inner, e) => until_loop(walk, inner.get(), e, around),
        StmtForm::For(first, test, step, inner) => {
            for_loop(walk, inner.get(), first, test, step, around)
        }
        StmtForm::Goto(name) => going(walk, name, around),
        StmtForm::Continue => Ok(TypedStmtForm::Continue),
        StmtForm::Break => Ok(TypedStmtForm::Break),
        StmtForm::Return(e) => returning(walk, e, around),
    }
}

/// A statement (`IsStmt`).
#[cycle(statements)]
fn statement(walk: &mut Elaborator, s: &Stmt, around: &Around) -> Result<TypedStmt, NoMemory>
    ensures makes { IfOk result (MakesStatement walk.old walk.new around.now s.now) }
    ensures puts { OnOk result (PutsStatement walk.old walk.new s.now) }
    ensures goes_on { OnOk result (GoesOn walk.old walk.new) }
{
    let form = statement_form(walk, s, around)?;
    Ok(TypedStmt {
        spot: s.spot,
        ordinal: s.ordinal,
        form,
    })
}
