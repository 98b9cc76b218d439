//! Statements (C99 6.8).
ghost use Rattle.std.specs.Prelude.{ℕ, Some, OnOk, IfOk};
ghost use Rattle.lk_tree.specs.declared.statement.BlockItem.TheOpen.{StmtForm-F};
ghost use Rattle.lk_tree.specs.declared.statement.BlockItem.{out-BlockItem};
ghost use Rattle.lk_tree.specs.declared.statement.StmtForm.{out-StmtForm};
ghost use Rattle.lk_checker.specs.States.{IsSound};
ghost use Rattle.lk_check_unit.specs.Bodies.{IsKnownResult, Stays, WalksForm, WalksItem, WalksItems};
ghost use Rattle.lk_check_unit.specs.Bodies.{WalksScoped, WalksStatement, WalksTurning};

use crate::asking::{case_constant, condition, condition_in, dropped_if_any, switch_value};
use crate::body::Body;
use crate::cases::{around_case, around_default, begin_switch};
use crate::declarations::declaration_in_block;
use crate::heads::for_head;
use crate::keeping::keep_code;
use crate::returning::returning;
use crate::scopes::{enter, leave};
use lk_base::{Boxed, Code, Name, NoMemory};
use lk_check_decl::{break_code, continue_code};
use lk_checker::Checker;
use lk_labels::{goto_code, label_code};
use lk_tree::{BlockItem, Expr, ForFirst, Stmt, StmtForm};

/// An expression statement: its code.
fn expression(
    checker: &mut Checker,
    e: &Option<Expr>,
    body: &mut Body,
) -> Result<Option<Code>, NoMemory>
    requires sound { IsSound checker.old }
    requires known { IsKnownResult checker.old body.old }
    ensures stays { OnOk result (Stays checker.old checker.new body.old body.new) }
    ensures walks { IfOk result (λ code. (n : ℕ) →
        WalksForm (StmtForm-F.Do e.now) n checker.old checker.new body.old body.new code) }
{
    let _body = body;
    let asked = dropped_if_any(checker, e)?;
    Ok(asked.code)
}

/// A labelled statement: its code.
#[cycle(statements)]
fn labelled(
    checker: &mut Checker,
    name: &Name,
    ordinal: u32,
    inner: &Stmt,
    body: &mut Body,
) -> Result<Option<Code>, NoMemory>
    requires sound { IsSound checker.old }
    requires known { IsKnownResult checker.old body.old }
    ensures stays { OnOk result (Stays checker.old checker.new body.old body.new) }
    ensures walks { IfOk result (WalksForm (StmtForm-F.Label name.now inner.now) ordinal
        checker.old checker.new body.old body.new) }
{
    let code = label_code(&body.labels, name, ordinal);
    statement(checker, inner, body)?;
    Ok(code)
}

/// A case: its code.
#[cycle(statements)]
fn case(
    checker: &mut Checker,
    inner: &Stmt,
    e: &Expr,
    body: &mut Body,
) -> Result<Option<Code>, NoMemory>
    requires sound { IsSound checker.old }
    requires known { IsKnownResult checker.old body.old }
    ensures stays { OnOk result (Stays checker.old checker.new body.old body.new) }
    ensures walks { IfOk result (λ code. (n : ℕ) →
        WalksForm (StmtForm-F.Case e.now inner.now) n checker.old checker.new body.old body.new code) }
{
    let constant = case_constant(checker, e)?;
    let code = around_case(body, constant)?;
    statement(checker, inner, body)?;
    Ok(code)
}

/// A `default`: its code.
#[cycle(statements)]
fn default_case(
    checker: &mut Checker,
    inner: &Stmt,
    body: &mut Body,
) -> Result<Option<Code>, NoMemory>
    requires sound { IsSound checker.old }
    requires known { IsKnownResult checker.old body.old }
    ensures stays { OnOk result (Stays checker.old checker.new body.old body.new) }
    ensures walks { IfOk result (λ code. (n : ℕ) →
        WalksForm (StmtForm-F.Default inner.now) n checker.old checker.new body.old body.new code) }
{
    let code = around_default(body);
    statement(checker, inner, body)?;
    Ok(code)
}

/// The items of a block, in the scope in which they stand.
#[cycle(statements)]
pub(crate) fn block_items(
    checker: &mut Checker,
    items: &[BlockItem],
    body: &mut Body,
) -> Result<(), NoMemory>
    requires sound { IsSound checker.old }
    requires known { IsKnownResult checker.old body.old }
    ensures stays { OnOk result (Stays checker.old checker.new body.old body.new) }
    ensures walks { OnOk result (WalksItems items.now checker.old checker.new body.old body.new) }
{
    for item in items {
        block_item(checker, item, body)?;
    }
    Ok(())
}

/// An item of a block.
#[cycle(statements)]
fn block_item(checker: &mut Checker, item: &BlockItem, body: &mut Body) -> Result<(), NoMemory>
    requires sound { IsSound checker.old }
    requires known { IsKnownResult checker.old body.old }
    ensures stays { OnOk result (Stays checker.old checker.new body.old body.new) }
    ensures walks { OnOk result (WalksItem (out-BlockItem item.now) checker.old checker.new body.old body.new) }
{
    match item {
        BlockItem::Declare(node) => declaration_in_block(checker, node),
        BlockItem::Stmt(inner) => statement(checker, inner, body),
    }
}

/// A block: it has no code.
#[cycle(statements)]
fn block(
    checker: &mut Checker,
    items: &[BlockItem],
    body: &mut Body,
) -> Result<Option<Code>, NoMemory>
    requires sound { IsSound checker.old }
    requires known { IsKnownResult checker.old body.old }
    ensures stays { OnOk result (Stays checker.old checker.new body.old body.new) }
    ensures walks { IfOk result (λ code. (n : ℕ) →
        WalksForm (StmtForm-F.Block items.now) n checker.old checker.new body.old body.new code) }
{
    let mark = enter(checker);
    block_items(checker, items, body)?;
    leave(checker, mark);
    Ok(None)
}

/// A statement in a scope of its own.
#[cycle(statements)]
fn scoped(checker: &mut Checker, s: &Stmt, body: &mut Body) -> Result<(), NoMemory>
    requires sound { IsSound checker.old }
    requires known { IsKnownResult checker.old body.old }
    ensures stays { OnOk result (Stays checker.old checker.new body.old body.new) }
    ensures walks { OnOk result (WalksScoped (Some s.now) checker.old checker.new body.old body.new) }
{
    let mark = enter(checker);
    statement(checker, s, body)?;
    leave(checker, mark);
    Ok(())
}

/// The same of one that may be absent.
#[cycle(statements)]
fn scoped_if_any(
    checker: &mut Checker,
    s: &Option<Boxed<Stmt>>,
    body: &mut Body,
) -> Result<(), NoMemory>
    requires sound { IsSound checker.old }
    requires known { IsKnownResult checker.old body.old }
    ensures stays { OnOk result (Stays checker.old checker.new body.old body.new) }
    ensures walks { OnOk result (WalksScoped s.now checker.old checker.new body.old body.new) }
{
    match s {
        Some(s) => scoped(checker, s.get(), body),
        None => Ok(()),
    }
}

/// The body of a loop.
#[cycle(statements)]
fn turning(checker: &mut Checker, s: &Stmt, body: &mut Body) -> Result<(), NoMemory>
    requires sound { IsSound checker.old }
    requires known { IsKnownResult checker.old body.old }
    ensures stays { OnOk result (Stays checker.old checker.new body.old body.new) }
    ensures walks { OnOk result (WalksTurning s.now checker.old checker.new body.old body.new) }
{
    let outer = body.in_loop;
    body.in_loop = true;
    scoped(checker, s, body)?;
    body.in_loop = outer;
    Ok(())
}

/// A `switch`: its code. The switch round it is put aside while its body is walked.
#[cycle(statements)]
fn switch(
    checker: &mut Checker,
    inner: &Stmt,
    e: &Expr,
    body: &mut Body,
) -> Result<Option<Code>, NoMemory>
    requires sound { IsSound checker.old }
    requires known { IsKnownResult checker.old body.old }
    ensures stays { OnOk result (Stays checker.old checker.new body.old body.new) }
    ensures walks { IfOk result (λ code. (n : ℕ) →
        WalksForm (StmtForm-F.Switch e.now inner.now) n checker.old checker.new body.old body.new code) }
{
    let mark = enter(checker);
    let found = switch_value(checker, e)?;
    let outer = begin_switch(checker.alloc, body, found.1);
    scoped(checker, inner, body)?;
    body.switch = outer;
    leave(checker, mark);
    Ok(found.0.code)
}

/// A `while`: its code.
#[cycle(statements)]
fn while_loop(
    checker: &mut Checker,
    inner: &Stmt,
    e: &Expr,
    body: &mut Body,
) -> Result<Option<Code>, NoMemory>
    requires sound { IsSound checker.old }
    requires known { IsKnownResult checker.old body.old }
    ensures stays { OnOk result (Stays checker.old checker.new body.old body.new) }
    ensures walks { IfOk result (λ code. (n : ℕ) →
        WalksForm (StmtForm-F.While e.now inner.now) n checker.old checker.new body.old body.new code) }
{
    let mark = enter(checker);
    let asked = condition(checker, e)?;
    turning(checker, inner, body)?;
    leave(checker, mark);
    Ok(asked.code)
}

/// A `do`: its code.
#[cycle(statements)]
fn until_loop(
    checker: &mut Checker,
    inner: &Stmt,
    e: &Expr,
    body: &mut Body,
) -> Result<Option<Code>, NoMemory>
    requires sound { IsSound checker.old }
    requires known { IsKnownResult checker.old body.old }
    ensures stays { OnOk result (Stays checker.old checker.new body.old body.new) }
    ensures walks { IfOk result (λ code. (n : ℕ) →
        WalksForm (StmtForm-F.Until inner.now e.now) n checker.old checker.new body.old body.new code) }
{
    let mark = enter(checker);
    turning(checker, inner, body)?;
    let asked = condition(checker, e)?;
    leave(checker, mark);
    Ok(asked.code)
}

/// A `for`: its code.
#[cycle(statements)]
fn for_loop(
    checker: &mut Checker,
    inner: &Stmt,
    first: &ForFirst,
    test: &Option<Expr>,
    step: &Option<Expr>,
    body: &mut Body,
) -> Result<Option<Code>, NoMemory>
    requires sound { IsSound checker.old }
    requires known { IsKnownResult checker.old body.old }
    ensures stays { OnOk result (Stays checker.old checker.new body.old body.new) }
    ensures walks { IfOk result (λ code. (n : ℕ) →
        WalksForm (StmtForm-F.For first.now test.now step.now inner.now) n checker.old checker.new body.old
        body.new code) }
{
    let mark = enter(checker);
    let code = for_head(checker, first, test, step)?;
    turning(checker, inner, body)?;
    leave(checker, mark);
    Ok(code)
}

/// The parts of a statement: the code that holds at it.
#[cycle(statements)]
fn statement_parts(
    checker: &mut Checker,
    s: &Stmt,
    body: &mut Body,
) -> Result<Option<Code>, NoMemory>
    requires sound { IsSound checker.old }
    requires known { IsKnownResult checker.old body.old }
    ensures stays { OnOk result (Stays checker.old checker.new body.old body.new) }
    ensures walks { IfOk result (WalksForm (out-StmtForm s.now.form) s.now.ordinal
        checker.old checker.new body.old body.new) }
{
    match &s.form {
        StmtForm::Label(name, inner) => labelled(checker, name, s.ordinal, inner.get(), body),
        StmtForm::Case(e, inner) => case(checker, inner.get(), e, body),
        StmtForm::Default(inner) => default_case(checker, inner.get(), body),
        StmtForm::Block(items) => block(checker, items.list(), body),
        StmtForm::Do(e) => expression(checker, e, body),
        StmtForm::If(e, taken, other) => {
            let mark = enter(checker);
            let asked = condition_in(checker, e, body)?;
            scoped(checker, taken.get(), body)?;
            scoped_if_any(checker, other, body)?;
            leave(checker, mark);
            Ok(asked.code)
        }
        StmtForm::Switch(e, inner) => switch(checker, inner.get(), e, body),
        StmtForm::While(e, inner) => while_loop(checker, inner.get(), e, body),
        StmtForm::Until(inner, e) => until_loop(checker, inner.get(), e, body),
        StmtForm::For(first, test, step, inner) => {
            for_loop(checker, inner.get(), first, test, step, body)
        }
        StmtForm::Goto(name) => Ok(goto_code(&body.labels, name)),
        StmtForm::Continue => Ok(continue_code(body.in_loop)),
        StmtForm::Break => Ok(break_code(body.in_loop, body.switch.is_some())),
        StmtForm::Return(e) => returning(checker, e, body),
    }
}

/// A statement.
#[cycle(statements)]
pub(crate) fn statement(checker: &mut Checker, s: &Stmt, body: &mut Body) -> Result<(), NoMemory>
    requires sound { IsSound checker.old }
    requires known { IsKnownResult checker.old body.old }
    ensures stays { OnOk result (Stays checker.old checker.new body.old body.new) }
    ensures walks { OnOk result (WalksStatement s.now checker.old checker.new body.old body.new) }
{
    let code = statement_parts(checker, s, body)?;
    keep_code(checker, s, code)?;
    Ok(())
}
