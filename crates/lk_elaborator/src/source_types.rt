//! The types of a source, as the typed tree numbers them.
ghost use Rattle.std.specs.Prelude.{◌≡◌, IfOk};
ghost use Rattle.lk_types.specs.Building.{IsLonger};
ghost use Rattle.lk_types.specs.Table.{IsKnown};
ghost use Rattle.lk_typed.specs.Elements.{HasFewElements};
ghost use Rattle.lk_typed.specs.Meaning.{IsReady, meaning};
ghost use Rattle.lk_typed.specs.Ty.{Pointer};

use crate::unreached::nowhere;
use lk_base::NoMemory;
use lk_check_decl::stored_pointer;
use lk_types::{TypeId, TypeTable, predeclared_types_stay};
use std::marker::Model;

/// The types of a source without a fault. They begin with the predeclared ones, and none has 2^64 elements.
///
/// A contract sees the table.
#[derive(Drop)]
pub struct SourceTypes {
    table: TypeTable,
}

impl Model for SourceTypes {
    ghost use Rattle.lk_types.specs.Table.{Table};
    ghost use Rattle.lk_typed.specs.Elements.{HasFewElements};
    ghost use Rattle.lk_typed.specs.Meaning.{IsReady};

    ghost Value = { Table };

    ghost view = { λ types. types.table };

    ghost invariant = { λ types. IsReady types.table × HasFewElements types.table };
}

impl SourceTypes {
    /// The types of this table.
    pub fn new(table: TypeTable) -> SourceTypes
        requires ready { IsReady table }
        requires few { HasFewElements table }
        ensures { result ≡ table }
    {
        SourceTypes { table }
    }

    /// Their table.
    pub fn table(&self) -> &TypeTable
        ensures value { result.now ≡ self.now }
        ensures ready { IsReady result.now }
    {
        &self.table
    }

    /// Their table, of its own.
    pub fn into_table(self) -> TypeTable
        ensures value { result ≡ self }
        ensures ready { IsReady result }
        ensures few { HasFewElements result }
    {
        let SourceTypes { table } = self;
        table
    }

    /// The pointer to a type. The table has room for it: no type that is declared is over the bounds of the
    /// language, and those of a table are wider.
    pub fn pointer(&mut self, target: TypeId) -> Result<TypeId, NoMemory>
        requires { IsKnown self.old target }
        ensures means { IfOk result (λ t. meaning self.new t ≡ Pointer (meaning self.old target)) }
        ensures known { IfOk result (IsKnown self.new) }
        ensures longer { IsLonger self.old self.new }
        ensures members { self.new.members ≡ self.old.members }
        ensures ready { IsReady self.new }
    {
        let made = stored_pointer(&mut self.table, target);
        self.table.is_table();
        predeclared_types_stay();
        match made {
            Ok(Some(t)) => Ok(t),
            Ok(None) => Err(nowhere()),
            Err(NoMemory) => Err(NoMemory),
        }
    }
}
