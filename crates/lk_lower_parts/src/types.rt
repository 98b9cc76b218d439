//! Types that the program needs beside those of its sources.
ghost use Rattle.std.specs.Prelude.{◌≡◌, IfOk, OnOk, Some, slice_get};
ghost use Rattle.lk_lower_parts.specs.Tables.{AreArgumentTypes, ArePointerRows, ArePointersTo, HasMore};
ghost use Rattle.lk_types.specs.declared.c_type.CType.TheVariants.{Array};

use lk_base::{NoMemory, Seq};
use lk_typed::Whole;
use lk_types::{CType, TypeId, TypeTable};
use std::alloc::Global;

/// Puts a form to a table. Each one that is put is of parts that the table has, and no larger than a type of
/// a table may be, and no program has as many types as there are numbers.
#[tactic(auto, using(crate::proofs::Pointers::put_more))]
fn put(table: &mut TypeTable, form: CType) -> Result<TypeId, NoMemory>
    ensures put { IfOk result (λ t. slice_get table.new.types t ≡ Some form) }
    ensures more { OnOk result (HasMore table.old table.new) }
{
    if !table.is_form(&form) || table.form_size(&form).is_none() || table.count() == u32::MAX {
        return Err(NoMemory);
    }
    table.put(form)
}

/// An array of elements of a type, without a size.
pub(crate) fn unsized_array(table: &mut TypeTable, t: TypeId) -> Result<TypeId, NoMemory>
    ensures array { IfOk result (λ array. slice_get table.new.types array ≡ Some (Array t 0)) }
    ensures more { OnOk result (HasMore table.old table.new) }
{
    put(table, CType::Array(t, 0))
}

/// The pointers to the types of a source.
fn pointer_row(
    alloc: Global,
    types: &[TypeId],
    table: &mut TypeTable,
) -> Result<Seq<TypeId>, NoMemory>
    ensures pointers { IfOk result (ArePointersTo table.new types.now) }
    ensures more { OnOk result (HasMore table.old table.new) }
{
    let mut row = Vec::new(alloc);
    for t in types {
        let pointer = put(table, CType::Pointer(*t))?;
        row.push(pointer)?;
    }
    Ok(Seq::new(row))
}

/// Of each type of each source the pointer to it.
pub fn pointer_rows(
    alloc: Global,
    whole: &Whole,
    table: &mut TypeTable,
) -> Result<Vec<Seq<TypeId>>, NoMemory>
    ensures pointers { IfOk result (λ rows. ArePointerRows table.new whole.now.sources rows.items) }
    ensures more { OnOk result (HasMore table.old table.new) }
{
    let mut rows = Vec::new(alloc);
    for linked in whole.sources.list() {
        let row = pointer_row(alloc, linked.types.list(), table)?;
        rows.push(row)?;
    }
    Ok(rows)
}

/// The types of the objects of main's arguments.
#[derive(Clone, Copy)]
pub(crate) struct ArgumentTypes {
    /// The array of the pointers to the strings.
    pub(crate) strings: TypeId,
    /// The strings.
    pub(crate) chars: TypeId,
}

/// The types of the objects of main's arguments (C99 5.1.2.2.1).
#[tactic(auto, using(crate::proofs::Pointers::kept, crate::proofs::Pointers::more_more))]
pub(crate) fn argument_types(table: &mut TypeTable) -> Result<ArgumentTypes, NoMemory>
    ensures types { IfOk result (AreArgumentTypes table.new) }
    ensures more { OnOk result (HasMore table.old table.new) }
{
    let string = put(table, CType::Pointer(TypeId::CHAR))?;
    Ok(ArgumentTypes {
        strings: unsized_array(table, string)?,
        chars: unsized_array(table, TypeId::CHAR)?,
    })
}
