//! Structs of a source completed in the program.
ghost use Rattle.std.specs.Prelude.{◌≡◌, ◌<◌, ◌↔◌, ℕ, suc, All, IfSome, IsTrue, MatchOption, OnOk, Some, false, length, slice_get};
ghost use Rattle.lk_types.specs.Sizes.{steps_of};
ghost use Rattle.lk_types.specs.Table.{IsKnown, is_open, members_of};
ghost use Rattle.lk_types.specs.declared.c_type.CType.TheVariants.{Array, Struct};
ghost use Rattle.lk_join.specs.Completing.{AreCompleted, GivesMembers, HasStepsBelow, IsCompleted, IsElementHeld, IsHeld, IsToComplete};
ghost use Rattle.lk_join.specs.Large.{IsDoneBefore, IsJoining, IsTypeTable, KeepsOpen, struct_size};

use crate::forms::Source;
use lk_base::NoMemory;
use lk_types::{CType, MOST_TABLE_STEPS, TypeId, TypeTable};

/// What holds in each table of types.
pub(crate) fn is_type_table(table: &TypeTable)
    ensures { IsTypeTable table.now }
{
    table.is_table();
    table.structs_are_sized();
    table.elements_are_ordered();
}

/// The number of the struct, where a type of the table is one. Its members have fewer steps than the type.
fn struct_of(types: &TypeTable, t: TypeId) -> Option<u32>
    requires { IsKnown types.now t }
    ensures steps { IfSome result (HasStepsBelow types.now (steps_of types.now t)) }
    ensures exact { MatchOption result
        ((s : ℕ) → slice_get types.now.types t ≡ Some (Struct s) → ⊥)
        (λ s. slice_get types.now.types t ≡ Some (Struct s)) }
{
    types.get(t).struct_number()
}

/// The type of which a type is an array, where it is one.
fn element_of(types: &TypeTable, t: TypeId) -> Option<TypeId>
    requires { IsKnown types.now t }
    ensures known { IfSome result (IsKnown types.now) }
    ensures exact { MatchOption result
        ((u n : ℕ) → slice_get types.now.types t ≡ Some (Array u n) → ⊥)
        (λ u. (n : ℕ) × (slice_get types.now.types t ≡ Some (Array u n))) }
{
    match types.get(t) {
        CType::Array(element, _) => Some(*element),
        CType::Void
        | CType::Int(_)
        | CType::ThreadId
        | CType::Mutex
        | CType::Cond
        | CType::Pointer(_)
        | CType::Struct(_)
        | CType::Function { .. }
        | CType::Opaque(_) => None,
    }
}

/// Whether a struct of a table has members; `false` where the table has no such struct.
fn has_members(table: &TypeTable, s: u32) -> bool
    ensures { IsTrue result ↔ (is_open table.now s ≡ false) }
{
    let count = table.structs();
    if s >= count {
        return false;
    }
    !is_open(table, s)
}

/// Whether a struct of a table has no members yet.
fn is_open(table: &TypeTable, s: u32) -> bool
    requires { s < length table.now.members }
    ensures { result ≡ is_open table.now s }
{
    table.members(s).is_empty()
}

impl Source<'_> {
    /// Gives a struct of the program the members of one of the source. It can have them: it has none yet, and
    /// their types have their numbers, and are complete and as large as they are in the source.
    fn give_members(&self, row: &[TypeId], s: u32, table: &mut TypeTable) -> Result<(), NoMemory>
        requires joining { IsJoining self.now.types.now row.now self.now.structs.now table.old }
        requires before { IsDoneBefore self.now.types.now (length row.now) s }
        requires here { IsToComplete self.now.types.now self.now.structs.now table.old s }
        requires held { All (λ member. IsHeld self.now.types.now self.now.structs.now table.old member.ty)
            (members_of self.now.types.now s) }
        ensures gives { OnOk result
            (GivesMembers self.now.types.now row.now self.now.structs.now table.old table.new) }
        ensures joining { OnOk result (IsJoining self.now.types.now row.now self.now.structs.now table.new) }
        ensures completed { OnOk result (IsCompleted self.now.types.now self.now.structs.now table.new s) }
        ensures stays { OnOk result (KeepsOpen self.now.types.now self.now.structs.now
            (suc (struct_size self.now.types.now s).steps) table.old table.new) }
    {
        let here = self.struct_here(s);
        let members = self.members_here(row, s)?;
        table.complete_struct(here, members);
        is_type_table(table);
        Ok(())
    }

    /// Whether the program has members of a struct of the source, or the source has none.
    fn is_completed(&self, s: u32, table: &TypeTable) -> bool
        requires { s < length self.now.types.now.members }
        ensures done { IsTrue result → IsCompleted self.now.types.now self.now.structs.now table.now s }
        ensures lacks { result ≡ false → IsToComplete self.now.types.now self.now.structs.now table.now s }
    {
        if is_open(self.types, s) {
            return true;
        }
        has_members(table, self.struct_here(s))
    }

    /// Completes a struct in the program, where the source completes it, and before it those that it holds by
    /// value. Its members have fewer than so many steps.
    fn complete(
        &self,
        row: &[TypeId],
        s: u32,
        steps: u32,
        table: &mut TypeTable,
    ) -> Result<(), NoMemory>
        requires joining { IsJoining self.now.types.now row.now self.now.structs.now table.old }
        requires steps { HasStepsBelow self.now.types.now steps s }
        requires before { is_open self.now.types.now s ≡ false →
            IsDoneBefore self.now.types.now (length row.now) s }
        ensures gives { OnOk result
            (GivesMembers self.now.types.now row.now self.now.structs.now table.old table.new) }
        ensures joining { OnOk result (IsJoining self.now.types.now row.now self.now.structs.now table.new) }
        ensures completed { OnOk result (IsCompleted self.now.types.now self.now.structs.now table.new s) }
        ensures stays { OnOk result (KeepsOpen self.now.types.now self.now.structs.now
            (suc (struct_size self.now.types.now s).steps) table.old table.new) }
    {
        if self.is_completed(s, table) {
            return Ok(());
        }
        for member in self.types.members(s) {
            let inside = match struct_of(self.types, member.ty) {
                Some(inside) => inside,
                None => continue,
            };
            self.complete(row, inside, steps - 1, table)?;
        }
        self.give_members(row, s, table)?;
        Ok(())
    }

    /// Completes the struct of which a type of the source is an array, where it is one: the types of its
    /// members stand before it in the source's table.
    pub(crate) fn complete_element(
        &self,
        row: &[TypeId],
        t: TypeId,
        table: &mut TypeTable,
    ) -> Result<(), NoMemory>
        requires known { IsKnown self.now.types.now t }
        requires before { length row.now ≡ t }
        requires joining { IsJoining self.now.types.now row.now self.now.structs.now table.old }
        ensures gives { OnOk result
            (GivesMembers self.now.types.now row.now self.now.structs.now table.old table.new) }
        ensures joining { OnOk result (IsJoining self.now.types.now row.now self.now.structs.now table.new) }
        ensures held { OnOk result (IsElementHeld self.now.types.now self.now.structs.now table.new t) }
    {
        let element = match element_of(self.types, t) {
            Some(element) => element,
            None => return Ok(()),
        };
        let s = match struct_of(self.types, element) {
            Some(s) => s,
            None => return Ok(()),
        };
        self.complete(row, s, MOST_TABLE_STEPS, table)?;
        Ok(())
    }

    /// Completes the structs in the program that the source completes.
    pub(crate) fn complete_all(&self, row: &[TypeId], table: &mut TypeTable) -> Result<(), NoMemory>
        requires whole { length row.now ≡ length self.now.types.now.types }
        requires joining { IsJoining self.now.types.now row.now self.now.structs.now table.old }
        ensures gives { OnOk result
            (GivesMembers self.now.types.now row.now self.now.structs.now table.old table.new) }
        ensures joining { OnOk result (IsJoining self.now.types.now row.now self.now.structs.now table.new) }
        ensures completed { OnOk result (AreCompleted self.now.types.now self.now.structs.now table.new
            (length self.now.types.now.members)) }
    {
        for s in 0..self.types.structs() {
            self.complete(row, s, MOST_TABLE_STEPS + 1, table)?;
        }
        Ok(())
    }
}
