//! Statements of a checked source (C99 6.8).

use crate::expression::TypedExpr;
use crate::initialiser::{AbsentCells, LocalPart};
use lk_base::{Boxed, Seq, Spot};

/// A statement.
#[cycle(typed_statement)]
#[derive(Drop)]
pub struct TypedStmt {
    pub spot: Spot,
    pub ordinal: u32,
    pub form: TypedStmtForm,
}

/// A case of a `switch`.
#[derive(Clone, Copy)]
pub struct SwitchCase {
    /// Its value, converted to the promoted type of the `switch`'s value.
    pub value: i128,
    /// The number of the `Case` node.
    pub ordinal: u32,
}

/// What a statement is made of.
#[cycle(typed_statement)]
#[derive(Drop)]
pub enum TypedStmtForm {
    /// `label: statement`
    Label(Boxed<TypedStmt>),
    /// `case value: statement`
    Case(Boxed<TypedStmt>),
    /// `default: statement`
    Default(Boxed<TypedStmt>),
    /// `{ items }`
    Block(Seq<TypedItem>),
    /// `expression;`, perhaps without the expression.
    Do(Option<TypedExpr>),
    /// `if (condition) statement else statement`, perhaps without the second.
    If(TypedExpr, Boxed<TypedStmt>, Option<Boxed<TypedStmt>>),
    /// `switch (value) statement`: the value, promoted, the cases in the order of the text, and the
    /// number of the `Default` node.
    Switch(TypedExpr, Seq<SwitchCase>, Option<u32>, Boxed<TypedStmt>),
    /// `while (condition) statement`
    While(TypedExpr, Boxed<TypedStmt>),
    /// `do statement while (condition);`
    Until(Boxed<TypedStmt>, TypedExpr),
    /// `for (first; condition; step) statement`
    For(TypedFirst, Option<TypedExpr>, Option<TypedExpr>, Boxed<TypedStmt>),
    /// `goto label;`, by the number of the `Label` node.
    Goto(u32),
    /// `continue;`
    Continue,
    /// `break;`
    Break,
    /// `return value;`, perhaps without the value, which is converted to the function's result.
    Return(Option<TypedExpr>),
}

/// A local whose declaration gives it a value. A slot has one part, with the empty path.
#[derive(Drop)]
pub struct LocalInit {
    /// The number of the local among those of its body.
    pub local: u32,
    /// The parts that its initialiser names, in the order of the text.
    pub named: Seq<LocalPart>,
    /// The cells that it doesn't name, in the order of their paths.
    pub absent: Seq<AbsentCells>,
}

/// An item of a block.
#[cycle(typed_statement)]
#[derive(Drop)]
pub enum TypedItem {
    /// A declaration, by those of its locals that it gives a value, in the order of the text.
    Declare(Seq<LocalInit>),
    Stmt(TypedStmt),
}

/// The first part of a `for`.
#[derive(Drop)]
pub enum TypedFirst {
    /// An expression, where there is one.
    Expr(Option<TypedExpr>),
    Declare(Seq<LocalInit>),
}
