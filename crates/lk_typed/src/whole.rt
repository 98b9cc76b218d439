//! The checked sources of a program, put together.

use crate::entity::{EntityKind, Linkage};
use crate::unit::TypedUnit;
use lk_base::{Name, Seq};
use lk_types::{TypeId, TypeTable};

/// A checked source with what its numbers stand for in the program.
pub struct Linked {
    pub unit: TypedUnit,
    /// Of each of its types the number in the program's table.
    pub types: Seq<TypeId>,
    /// Of each of its entities the number among the program's.
    pub entities: Seq<u32>,
}

impl Drop for Linked {
    fn drop(self) {
        let Linked {
            unit: _unit,
            types: _types,
            entities: _entities,
        } = self;
    }
}

/// A function or an object of static storage of the program: one for each name of external linkage, and one
/// of each source for each other (C99 6.2.2).
#[derive(Drop)]
pub struct WholeEntity {
    pub name: Name,
    pub linkage: Linkage,
    pub kind: EntityKind,
    /// Its type in the program's table, with the size of an array where one declaration gives it.
    pub ty: TypeId,
    /// The source that defines it, and the entity's number there; nothing where none does.
    pub defined: Option<(u32, u32)>,
}

/// The program that sources make together.
pub struct Whole {
    /// The sources, in the order of the command.
    pub sources: Seq<Linked>,
    /// The types of the program.
    pub types: TypeTable,
    /// Its functions and objects of static storage, in the order of their first declarations.
    pub entities: Seq<WholeEntity>,
    /// The number of the function `main`.
    pub main: u32,
}

impl Drop for Whole {
    fn drop(self) {
        let Whole {
            sources: _sources,
            types: _types,
            entities: _entities,
            main: _main,
        } = self;
    }
}
