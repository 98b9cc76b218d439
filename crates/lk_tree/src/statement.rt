//! Statements and units.

use crate::declaration::Declare;
use crate::expression::{Declarator, Expr, Specifier};
use lk_base::{Boxed, Name, Seq, Spot};

/// A statement (C99 6.8).
#[cycle(statement)]
#[derive(Drop)]
pub struct Stmt {
    pub spot: Spot,
    pub ordinal: u32,
    pub form: StmtForm,
}

/// What a statement is made of.
#[cycle(statement)]
#[derive(Drop)]
pub enum StmtForm {
    /// `label: statement`
    Label(Name, Boxed<Stmt>),
    /// `case value: statement`
    Case(Expr, Boxed<Stmt>),
    /// `default: statement`
    Default(Boxed<Stmt>),
    /// `{ items }`
    Block(Seq<BlockItem>),
    /// `expression;`, perhaps without the expression.
    Do(Option<Expr>),
    /// `if (condition) statement else statement`, perhaps without the second.
    If(Expr, Boxed<Stmt>, Option<Boxed<Stmt>>),
    /// `switch (value) statement`
    Switch(Expr, Boxed<Stmt>),
    /// `while (condition) statement`
    While(Expr, Boxed<Stmt>),
    /// `do statement while (condition);`
    Until(Boxed<Stmt>, Expr),
    /// `for (first; condition; step) statement`
    For(ForFirst, Option<Expr>, Option<Expr>, Boxed<Stmt>),
    /// `goto label;`
    Goto(Name),
    /// `continue;`
    Continue,
    /// `break;`
    Break,
    /// `return value;`, perhaps without the value.
    Return(Option<Expr>),
}

/// An item of a block.
#[cycle(statement)]
#[derive(Drop)]
pub enum BlockItem {
    Declare(Declare),
    Stmt(Stmt),
}

/// The first part of a `for`.
#[derive(Drop)]
pub enum ForFirst {
    /// An expression, where there is one.
    Expr(Option<Expr>),
    Declare(Declare),
}

/// An external declaration (C99 6.9).
#[derive(Drop)]
pub enum Decl {
    Function(Function),
    Declare(Declare),
    Empty(Empty),
}

/// A definition of a function. Its body is a `Block`.
#[derive(Drop)]
pub struct Function {
    pub spot: Spot,
    pub ordinal: u32,
    pub specifiers: Seq<Specifier>,
    pub declarator: Declarator,
    pub body: Stmt,
}

/// A `;` outside functions.
#[derive(Drop)]
pub struct Empty {
    pub spot: Spot,
    pub ordinal: u32,
}

/// A source as a tree: its external declarations, in order.
#[derive(Drop)]
pub struct Unit {
    pub externals: Seq<Decl>,
}
