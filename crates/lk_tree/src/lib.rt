//! The syntax tree of a source.
//!
//! Trees are plain values: a contract compares two of them by `≡`.
#![tactic(auto)]

mod declaration;
mod expression;
mod operators;
mod specifiers;
mod statement;

pub use declaration::{Declare, Designator, Entry, Init, InitDeclarator, InitList};
pub use expression::{
    Declarator, DeclaratorForm, Expr, ExprForm, Item, Member, MemberDeclarator, Parameter,
    Specifier, TypeName,
};
pub use operators::{AssignOperator, BinaryOperator, PrefixOperator, StepOperator};
pub use specifiers::{Qualifier, Storage, TypeWord};
pub use statement::{BlockItem, Decl, Empty, ForFirst, Function, Stmt, StmtForm, Unit};
