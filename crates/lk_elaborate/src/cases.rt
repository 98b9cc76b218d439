//! The cases of a `switch` (C99 6.8.4.2).

ghost use Rattle.std.specs.Prelude.{◌≡◌, [], None, IfOk, OnOk};
ghost use Rattle.lk_elaborate.specs.Making.{BeginsDefault, FindsCases, IsCaseOf, IsConstantOf, PutsOf, PutsOfCase};
ghost use Rattle.lk_elaborate.specs.Making.{PutsOfDefault, PutsOfElse, PutsOfItem, PutsOfItems};

use lk_base::{Boxed, Kind, NoMemory, Seq};
use lk_check_decl::case_value;
use lk_elaborator::{Elaborator, nowhere, typing_at};
use lk_tree::{BlockItem, Expr, Stmt, StmtForm};
use lk_typed::{Constant, SwitchCase};
use std::alloc::Global;

/// What is found of the cases of a `switch`.
#[derive(Drop)]
pub(crate) struct Cases {
    /// Its cases, in the order of the text (`AreCases`).
    pub(crate) cases: Seq<SwitchCase>,
    /// The number of its `Default` node (`IsDefault`).
    pub(crate) default: Option<u32>,
}

/// What an expression is as an integer constant expression.
fn constant_of(walk: &Elaborator, e: &Expr) -> Result<Constant, NoMemory>
    ensures { IfOk result (IsConstantOf walk.now e.now) }
{
    match typing_at(walk, e.ordinal) {
        Ok(typing) => Ok(typing.constant),
        Err(NoMemory) => Err(NoMemory),
    }
}

/// A case of this value, with this number.
fn case_with(value: i128, ordinal: u32) -> SwitchCase
    ensures value { result.value ≡ value }
    ensures ordinal { result.ordinal ≡ ordinal }
{
    SwitchCase { value, ordinal }
}

/// A case with this number: its value is converted to the promoted type of the `switch`'s value
/// (C99 6.8.4.2, 5). The value and the type are known: a value that is no constant is refused with
/// `Code::NotConstant`.
fn case_of(
    walk: &Elaborator,
    kind: Option<Kind>,
    e: &Expr,
    ordinal: u32,
) -> Result<SwitchCase, NoMemory>
    ensures { IfOk result (IsCaseOf walk.now kind e.now ordinal) }
{
    let constant = constant_of(walk, e)?;
    match case_value(kind, Some(constant)) {
        Some(value) => Ok(case_with(value, ordinal)),
        None => Err(nowhere()),
    }
}

impl Cases {
    /// No case.
    fn new(alloc: Global) -> Cases
        ensures cases { result.cases ≡ [] }
        ensures default { result.default ≡ None }
    {
        Cases {
            cases: Seq::new(Vec::new(alloc)),
            default: None,
        }
    }

    /// Puts the cases of the items of a block.
    #[cycle(cases)]
    fn put_items(
        &mut self,
        walk: &Elaborator,
        kind: Option<Kind>,
        items: &[BlockItem],
    ) -> Result<(), NoMemory>
        ensures { OnOk result (PutsOfItems walk.now kind items.now self.old self.new) }
    {
        for item in items {
            self.put_item(walk, kind, item)?;
        }
        Ok(())
    }

    /// Puts the cases of an item of a block.
    #[cycle(cases)]
    fn put_item(
        &mut self,
        walk: &Elaborator,
        kind: Option<Kind>,
        item: &BlockItem,
    ) -> Result<(), NoMemory>
        ensures { OnOk result (PutsOfItem walk.now kind item.now self.old self.new) }
    {
        match item {
            BlockItem::Declare(_) => Ok(()),
            BlockItem::Stmt(inner) => self.put(walk, kind, inner),
        }
    }

    /// Puts the cases of the statement behind `else`.
    #[cycle(cases)]
    fn put_if_any(
        &mut self,
        walk: &Elaborator,
        kind: Option<Kind>,
        s: &Option<Boxed<Stmt>>,
    ) -> Result<(), NoMemory>
        ensures { OnOk result (PutsOfElse walk.now kind s.now self.old self.new) }
    {
        match s {
            Some(s) => {
                self.put(walk, kind, s.get())?;
                Ok(())
            }
            None => Ok(()),
        }
    }

    /// Puts a `default`. A `switch` has one at most (C99 6.8.4.2, 3).
    fn begin_default(&mut self, ordinal: u32) -> Result<(), NoMemory>
        ensures { OnOk result (BeginsDefault ordinal self.old self.new) }
    {
        match self.default {
            Some(_) => Err(nowhere()),
            None => {
                self.default = Some(ordinal);
                Ok(())
            }
        }
    }

    /// Puts a case with the cases behind it.
    #[cycle(cases)]
    fn put_case(
        &mut self,
        walk: &Elaborator,
        kind: Option<Kind>,
        inner: &Stmt,
        e: &Expr,
        ordinal: u32,
    ) -> Result<(), NoMemory>
        ensures { OnOk result (PutsOfCase walk.now kind e.now inner.now ordinal self.old self.new) }
    {
        let case = case_of(walk, kind, e, ordinal)?;
        self.cases.push(case)?;
        self.put(walk, kind, inner)?;
        Ok(())
    }

    /// Puts a `default` with the cases behind it.
    #[cycle(cases)]
    fn put_default(
        &mut self,
        walk: &Elaborator,
        kind: Option<Kind>,
        inner: &Stmt,
        ordinal: u32,
    ) -> Result<(), NoMemory>
        ensures { OnOk result (PutsOfDefault walk.now kind inner.now ordinal self.old self.new) }
    {
        self.begin_default(ordinal)?;
        self.put(walk, kind, inner)?;
        Ok(())
    }

    /// Puts the cases of a statement in a `switch` whose value has this kind. Those inside
    /// another `switch` belong to it.
    #[cycle(cases)]
    fn put(&mut self, walk: &Elaborator, kind: Option<Kind>, s: &Stmt) -> Result<(), NoMemory>
        ensures { OnOk result (PutsOf walk.now kind s.now self.old self.new) }
    {
        match &s.form {
            StmtForm::Case(e, inner) => self.put_case(walk, kind, inner.get(), e, s.ordinal),
            StmtForm::Default(inner) => self.put_default(walk, kind, inner.get(), s.ordinal),
            StmtForm::Label(_, inner) => self.put(walk, kind, inner.get()),
            StmtForm::While(_, inner) => self.put(walk, kind, inner.get()),
            StmtForm::Until(inner, _) => self.put(walk, kind, inner.get()),
            StmtForm::For(_, _, _, inner) => self.put(walk, kind, inner.get()),
            StmtForm::Block(items) => self.put_items(walk, kind, items.list()),
            StmtForm::If(_, taken, other) => {
                self.put(walk, kind, taken.get())?;
                self.put_if_any(walk, kind, other)?;
                Ok(())
            }
            StmtForm::Switch(_, _) => Ok(()),
            StmtForm::Do(_) => Ok(()),
            StmtForm::Goto(_) => Ok(()),
            StmtForm::Continue => Ok(()),
            StmtForm::Break => Ok(()),
            StmtForm::Return(_) => Ok(()),
        }
    }
}

/// The cases of a `switch` round this statement, whose value has this kind.
pub(crate) fn cases_of(walk: &Elaborator, kind: Option<Kind>, s: &Stmt) -> Result<Cases, NoMemory>
    ensures { IfOk result (FindsCases walk.now kind s.now) }
{
    let mut found = Cases::new(walk.alloc);
    found.put(walk, kind, s)?;
    Ok(found)
}
