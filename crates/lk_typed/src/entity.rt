//! What the names of a source stand for that outlive a call: functions, and objects of static storage.

use lk_base::{Name, Seq, Spot};
use lk_types::TypeId;

/// How a name reaches beyond its scope (C99 6.2.2).
#[derive(Clone, Copy)]
pub enum Linkage {
    /// External: the name is one entity in all sources.
    External,
    /// Internal: the name is one entity in its source.
    Internal,
    /// None: a `static` object of a block.
    None,
}

/// What an entity is.
#[derive(Clone, Copy)]
pub enum EntityKind {
    Function,
    /// An object of static storage (C99 6.2.4, 3).
    Object,
}

/// What a declaration defines (C99 6.9.1, 6.9.2).
#[derive(Clone, Copy)]
pub enum Defines {
    /// Nothing: it only declares.
    Nothing,
    /// An object, where no other declaration has an initialiser.
    Tentative,
    /// A function by its body, or an object by its initialiser.
    Whole,
}

/// One declaration of an entity.
#[derive(Drop)]
pub struct Declaration {
    /// The place of the declared name in its declarator.
    pub spot: Spot,
    /// The number of that node of the syntax tree.
    pub ordinal: u32,
    /// The type that it declares, with the size of an array that its initialiser gives.
    pub ty: TypeId,
    /// What it defines.
    pub defines: Defines,
}

/// Where a name stands as an expression.
#[derive(Clone, Copy)]
pub struct Use {
    pub spot: Spot,
    /// The number of that node of the syntax tree.
    pub ordinal: u32,
}

/// A function or an object of static storage that a source declares.
#[derive(Drop)]
pub struct Entity {
    pub name: Name,
    pub linkage: Linkage,
    pub kind: EntityKind,
    /// The composite of the types that its declarations give: an array has its size where one
    /// of them gives it (C99 6.2.7).
    pub ty: TypeId,
    /// Its declarations, in the order of the text. There is one at least.
    pub declarations: Seq<Declaration>,
    /// Where it is first used as an expression, inside `sizeof` too.
    pub first_use: Option<Use>,
    /// Of a `static` object of a block the number of the body in which it stands.
    pub body: Option<u32>,
}
