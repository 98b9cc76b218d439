//! What checked sources define, and whether they have a `main`.
ghost use Rattle.std.specs.Prelude.{◌↔◌, IsTrue};
ghost use Rattle.std.specs.List.{Any};
ghost use Rattle.lk_link.specs.Sources.{IsDefining, IsDefinition};
ghost use Rattle.lk_link.specs.Clashes.{HasMain, IsMain};

use lk_typed::{Declaration, Defines, Entity, EntityKind, Linkage, TypedUnit};

/// Whether a declaration that defines this defines its name.
pub(crate) fn defines(what: Defines) -> bool
    ensures { IsTrue result ↔ IsDefining what }
{
    match what {
        Defines::Nothing => false,
        Defines::Tentative | Defines::Whole => true,
    }
}

/// Whether a declaration defines its name.
fn is_defining(declaration: &Declaration) -> bool
    ensures { IsTrue result ↔ IsDefining declaration.now.defines }
{
    defines(declaration.defines)
}

/// Whether a source defines an entity that it declares.
pub fn is_defined(entity: &Entity) -> bool
    ensures { IsTrue result ↔ IsDefinition entity.now }
{
    entity
        .declarations
        .list()
        .iter()
        .any(|declaration| is_defining(declaration))
}

/// Whether an entity is a function `main` of external linkage that its source defines.
fn is_main(entity: &Entity) -> bool
    ensures { IsTrue result ↔ IsMain entity.now }
{
    matches!(entity.kind, EntityKind::Function)
        && matches!(entity.linkage, Linkage::External)
        && entity.name.bytes() == b"main".as_slice()
        && is_defined(entity)
}

/// Whether one of the entities of a source is a function `main` of external linkage that it defines.
fn has_main_among(entities: &[Entity]) -> bool
    ensures { IsTrue result ↔ Any IsMain entities.now }
{
    entities.iter().any(|entity| is_main(entity))
}

/// Whether a source defines a function `main` of external linkage (C99 5.1.2.2.1).
pub fn has_main(units: &[TypedUnit]) -> bool
    ensures { IsTrue result ↔ HasMain units.now }
{
    units
        .iter()
        .any(|unit| has_main_among(unit.entities.list()))
}
