//! Declarations and initialisers.

use crate::expression::{Declarator, Expr, Specifier};
use lk_base::{Name, Seq, Spot};

/// A declaration (C99 6.7).
#[derive(Drop)]
pub struct Declare {
    pub spot: Spot,
    pub ordinal: u32,
    pub specifiers: Seq<Specifier>,
    pub declarators: Seq<InitDeclarator>,
}

/// A declarator of a declaration, with its initialiser where it has one.
#[derive(Drop)]
pub struct InitDeclarator {
    pub declarator: Declarator,
    pub init: Option<Init>,
}

/// An initialiser (C99 6.7.8).
#[cycle(init)]
#[derive(Drop)]
pub enum Init {
    /// An expression.
    Expr(Expr),
    /// `{ entries }`
    List(InitList),
}

/// An initialiser in braces. It has one entry at least.
#[cycle(init)]
#[derive(Drop)]
pub struct InitList {
    pub spot: Spot,
    pub ordinal: u32,
    pub entries: Seq<Entry>,
}

/// An entry of an initialiser in braces, with the designators before it.
#[cycle(init)]
#[derive(Drop)]
pub struct Entry {
    pub designators: Seq<Designator>,
    pub init: Init,
}

/// A designator of an entry.
#[derive(Drop)]
pub enum Designator {
    /// `.name`
    Member(Name),
    /// `[index]`
    Index(Expr),
}
