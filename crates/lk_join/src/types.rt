//! The program's table of types, made of those of the sources.
ghost use Rattle.std.specs.Prelude.{◌≡◌, ◌≤◌, ◌<◌, ◌^◌, ◌+◌, ◌++◌, ◌∷◌, [], All, IfOk, OnOk, Some, false, length, slice_get};
ghost use Rattle.lk_join.specs.Classes.{AreNumbers};
ghost use Rattle.lk_join.specs.Completing.{AreCompleted, AreOpen, GivesMembers, HasMembers, HaveSameMembers};
ghost use Rattle.lk_join.specs.Forms.{ArePutAt, AreRowsOf, HasPointer, KeepsPointers};
ghost use Rattle.lk_join.specs.Large.{AreAsLargeHere, HaveTypeTables, IsJoining};
ghost use Rattle.lk_link.specs.Sources.{AreSources};
ghost use Rattle.lk_types.specs.Building.{IsForm, IsLonger, IsTable};
ghost use Rattle.lk_types.specs.Predeclared.{HasPredeclared};
ghost use Rattle.lk_types.specs.Sizes.{form_size, is_over};
ghost use Rattle.lk_types.specs.Table.{IsKnown};

use crate::completing::is_type_table;
use crate::forms::Source;
use crate::numbers::Numbers;
use lk_base::{NoMemory, Seq};
use lk_typed::TypedUnit;
use lk_types::{CType, TypeId, TypeTable, predeclared_types_stay};
use std::alloc::Global;

/// The program's types, and of each type of each source its number among them.
#[derive(Drop)]
pub(crate) struct Types {
    pub(crate) table: TypeTable,
    pub(crate) rows: Vec<Seq<TypeId>>,
}

/// Puts a form to a table. `NoMemory` over 32 bits.
fn put(table: &mut TypeTable, form: CType) -> Result<TypeId, NoMemory>
    requires form { IsForm table.old form }
    requires small { is_over (form_size table.old form) ≡ false }
    ensures known { IfOk result (λ t. slice_get table.new.types t ≡ Some form) }
    ensures longer { OnOk result (IsLonger table.old table.new) }
    ensures members { OnOk result (table.new.members ≡ table.old.members) }
{
    if table.count() == u32::MAX {
        return Err(NoMemory);
    }
    table.put(form)
}

/// Begins so many structs in a table. `NoMemory` over 32 bits.
fn begin_structs(structs: usize, table: &mut TypeTable) -> Result<(), NoMemory>
    ensures few { OnOk result (structs < 2 ^ 32) }
    ensures count { OnOk result (length table.new.members ≡ length table.old.members + structs) }
    ensures same { OnOk result (HaveSameMembers table.old table.new) }
    ensures types { OnOk result (table.new.types ≡ table.old.types) }
{
    for _begun in 0..structs {
        if table.structs() == u32::MAX {
            return Err(NoMemory);
        }
        table.begin_struct()?;
    }
    Ok(())
}

impl Source<'_> {
    /// Puts a type of the source to the program's, where those before it are put. Answers its number there.
    fn put_type(&self, row: &[TypeId], t: TypeId, table: &mut TypeTable) -> Result<TypeId, NoMemory>
        requires known { IsKnown self.now.types.now t }
        requires before { length row.now ≡ t }
        requires joining { IsJoining self.now.types.now row.now self.now.structs.now table.old }
        ensures joining { IfOk result (λ here. IsJoining self.now.types.now (row.now ++ here ∷ [])
            self.now.structs.now table.new) }
        ensures gives { OnOk result
            (GivesMembers self.now.types.now row.now self.now.structs.now table.old table.new) }
    {
        self.complete_element(row, t, table)?;
        let form = self.form_here(row, self.types.get(t))?;
        let here = put(table, form)?;
        is_type_table(table);
        Ok(here)
    }

    /// Puts the types of the source to the program's. Answers their numbers there.
    fn put_types(&self, table: &mut TypeTable) -> Result<Vec<TypeId>, NoMemory>
        requires { IsJoining self.now.types.now [] self.now.structs.now table.old }
        ensures joining { IfOk result (λ row.
            IsJoining self.now.types.now row.items self.now.structs.now table.new) }
        ensures whole { IfOk result (λ row. length row.items ≡ length self.now.types.now.types) }
        ensures gives { IfOk result (λ row.
            GivesMembers self.now.types.now row.items self.now.structs.now table.old table.new) }
    {
        let mut row = Vec::new(self.alloc);
        for t in 0..self.types.count() {
            let here = self.put_type(row.as_slice(), TypeId(t), table)?;
            row.push(here)?;
        }
        Ok(row)
    }

    /// Puts the types of the source to the program's, and completes there what it
    /// completes. Answers the types' numbers.
    fn join(&self, table: &mut TypeTable) -> Result<Seq<TypeId>, NoMemory>
        requires { IsJoining self.now.types.now [] self.now.structs.now table.old }
        ensures large { OnOk result (AreAsLargeHere self.now.types.now self.now.structs.now table.new) }
        ensures put { IfOk result (λ row.
            ArePutAt table.new row self.now.structs.now self.now.types.now.types) }
        ensures gives { IfOk result (λ row.
            GivesMembers self.now.types.now row self.now.structs.now table.old table.new) }
        ensures completed { OnOk result (AreCompleted self.now.types.now self.now.structs.now table.new
            (length self.now.types.now.members)) }
    {
        let row = self.put_types(table)?;
        self.complete_all(row.as_slice(), table)?;
        Ok(Seq::new(row))
    }
}

/// Puts the pointer to a type to a table, where it is within the bounds of a table.
fn put_pointer(t: TypeId, table: &mut TypeTable) -> Result<(), NoMemory>
    requires { IsKnown table.old t }
    ensures put { OnOk result (HasPointer table.new t) }
    ensures keeps { OnOk result (KeepsPointers table.old table.new) }
{
    table.is_table();
    let form = CType::Pointer(t);
    match table.form_size(&form) {
        Some(_) => {
            put(table, form)?;
            Ok(())
        }
        None => Ok(()),
    }
}

/// Puts the pointers to these types to a table, where they are within the bounds of a table.
fn put_pointers(row: &[TypeId], table: &mut TypeTable) -> Result<(), NoMemory>
    requires { All (IsKnown table.old) row.now }
    ensures put { OnOk result (All (HasPointer table.new) row.now) }
    ensures keeps { OnOk result (KeepsPointers table.old table.new) }
{
    for t in row {
        put_pointer(*t, table)?;
    }
    Ok(())
}

/// What holds in each table of types holds in those of the sources.
fn are_type_tables(units: &[TypedUnit])
    ensures { HaveTypeTables units.now }
{
    for unit in units {
        is_type_table(&unit.types);
    }
}

/// Puts the types of the sources to a table. Answers of each type of each source its number there.
fn join_rows(
    alloc: Global,
    units: &[TypedUnit],
    numbers: &Numbers,
    table: &mut TypeTable,
) -> Result<Vec<Seq<TypeId>>, NoMemory>
    requires sources { AreSources units.now }
    requires numbers { AreNumbers units.now numbers.now.rows numbers.now.count }
    requires few { numbers.now.count < 2 ^ 32 }
    requires tables { HaveTypeTables units.now }
    requires within { numbers.now.count ≤ length table.old.members }
    requires incomplete { AreOpen table.old }
    ensures put { IfOk result (λ rows.
        AreRowsOf units.now numbers.now.rows table.new rows.items (length units.now)) }
    ensures members { IfOk result (λ rows. HasMembers units.now numbers.now.rows rows.items table.new) }
    ensures longer { OnOk result (IsLonger table.old table.new) }
{
    let structs = numbers.rows.list();
    let mut rows = Vec::new(alloc);
    for number in 0..units.len() {
        let source = Source {
            alloc,
            types: &units[number].types,
            structs: structs[number].list(),
        };
        is_type_table(table);
        let row = source.join(table)?;
        rows.push(row)?;
    }
    Ok(rows)
}

/// Puts the pointers to the types of all sources to a table, where they are within the bounds of a table.
fn put_all_pointers(rows: &[Seq<TypeId>], table: &mut TypeTable) -> Result<(), NoMemory>
    requires { All (All (IsKnown table.old)) rows.now }
    ensures put { OnOk result (All (All (HasPointer table.new)) rows.now) }
    ensures keeps { OnOk result (KeepsPointers table.old table.new) }
{
    for row in rows {
        put_pointers(row.list(), table)?;
    }
    Ok(())
}

/// The types of the program that the sources make: those of each source, in their order, and the pointers to
/// them. Each has the form that it has in its source, made of the program's types, and a struct is the one of
/// the program that `numbers` tells (C99 6.2.7).
pub(crate) fn join_types(
    alloc: Global,
    units: &[TypedUnit],
    numbers: &Numbers,
) -> Result<Types, NoMemory>
    requires sources { AreSources units.now }
    requires numbers { AreNumbers units.now numbers.now.rows numbers.now.count }
    ensures structs { IfOk result (λ types. numbers.now.count ≤ length types.table.members) }
    ensures put { IfOk result (λ types.
        AreRowsOf units.now numbers.now.rows types.table types.rows.items (length units.now)) }
    ensures members { IfOk result (λ types.
        HasMembers units.now numbers.now.rows types.rows.items types.table) }
    ensures pointers { IfOk result (λ types. All (All (HasPointer types.table)) types.rows.items) }
    ensures table { IfOk result (λ types. IsTable types.table) }
    ensures predeclared { IfOk result (λ types. HasPredeclared types.table) }
{
    predeclared_types_stay();
    let mut table = TypeTable::new(alloc)?;
    begin_structs(numbers.count, &mut table)?;
    are_type_tables(units);
    let rows = join_rows(alloc, units, numbers, &mut table)?;
    put_all_pointers(rows.as_slice(), &mut table)?;
    table.is_table();
    Ok(Types { table, rows })
}
