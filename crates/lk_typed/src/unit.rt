//! A checked source.

use crate::entity::Entity;
use crate::initialiser::StaticObject;
use crate::statement::TypedStmt;
use lk_base::{Name, Seq, Spot};
use lk_types::{TypeId, TypeTable};

/// A parameter or another object of a body that isn't `static`.
#[derive(Drop)]
pub struct Local {
    /// Its name; empty for a parameter without one.
    pub name: Name,
    pub ty: TypeId,
    /// The place of the declared name, or of the parameter where it has none.
    pub spot: Spot,
    /// The number of that node of the syntax tree.
    pub ordinal: u32,
    /// Whether it is a slot: a scalar whose address nothing in the text takes.
    pub is_slot: bool,
}

/// The definition of a function (C99 6.9.1).
#[derive(Drop)]
pub struct Body {
    pub spot: Spot,
    /// The number of the `Function` node.
    pub ordinal: u32,
    /// The function's number among the unit's entities.
    pub entity: u32,
    /// How many of its locals are its parameters. They come first.
    pub parameters: u32,
    /// Its locals, the others in the order of the text.
    pub locals: Seq<Local>,
    /// Its `Block`.
    pub block: TypedStmt,
}

/// A struct of the unit's table of types, as another source may name it too.
#[derive(Drop)]
pub struct StructTag {
    /// Its tag, where it has one.
    pub tag: Option<Name>,
    /// Whether it is declared at file scope.
    pub is_outside: bool,
}

/// A source without a fault.
pub struct TypedUnit {
    pub types: TypeTable,
    /// The structs of `types` by their numbers.
    pub structs: Seq<StructTag>,
    /// The functions and objects of static storage that the source declares, in the order
    /// of their first declarations.
    pub entities: Seq<Entity>,
    /// The objects of static storage that have an initialiser, in the order of the text.
    pub objects: Seq<StaticObject>,
    /// The definitions of functions, in the order of the text.
    pub bodies: Seq<Body>,
}

impl Drop for TypedUnit {
    fn drop(self) {
        let TypedUnit {
            types: _types,
            structs: _structs,
            entities: _entities,
            objects: _objects,
            bodies: _bodies,
        } = self;
    }
}
