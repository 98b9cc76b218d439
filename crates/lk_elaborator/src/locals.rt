//! The locals of a body (C99 6.2.4, 4; 6.9.1, 9).
ghost use Rattle.std.specs.Prelude.{◌≡◌, ◌↔◌, [], Some, IfOk, IsTrue, OnOk, length, nat_eq, true};
ghost use Rattle.std.specs.Map.{lookup};
ghost use Rattle.lk_types.specs.Table.{IsKnown};
ghost use Rattle.lk_elaborator.specs.Keeping.{KeepsNumbers, PutsNumber};
ghost use Rattle.lk_elaborator.specs.Leading.{GoesOn};
ghost use Rattle.lk_elaborator.specs.PuttingLocals.{AreBefore, IsSlotOf, PutsAmong, PutsLocalOf, Rise};

use crate::elaborator::Elaborator;
use crate::type_numbers::known;
use crate::unreached::nowhere;
use indexmap::IndexMap;
use lk_base::{Name, NoMemory, Spot};
use lk_check_expr::is_scalar;
use lk_typed::{ExprType, Local};
use lk_types::TypeId;
use std::alloc::Global;

/// The locals of a body so far.
#[derive(Drop)]
pub struct Locals {
    list: Vec<Local>,
    /// The number of the local that each node declares.
    numbers: IndexMap<u32, u32>,
}

/// Gives a number to a node, which has none yet.
pub(crate) fn put_number(
    numbers: &mut IndexMap<u32, u32>,
    ordinal: u32,
    number: u32,
) -> Result<(), NoMemory>
    ensures keeps { OnOk result (KeepsNumbers numbers.old.entries numbers.new.entries) }
    ensures puts { OnOk result (PutsNumber numbers.old.entries numbers.new.entries ordinal number) }
{
    match numbers.insert(ordinal, number)? {
        Some(_) => Err(nowhere()),
        None => Ok(()),
    }
}

impl Locals {
    /// No local.
    pub fn new(alloc: Global) -> Locals
        ensures list { result.list.items ≡ [] }
        ensures numbers { result.numbers.entries ≡ [] }
    {
        Locals {
            list: Vec::new(alloc),
            numbers: IndexMap::new(alloc),
        }
    }

    /// How many there are.
    pub fn count(&self) -> Result<u32, NoMemory>
        ensures { IfOk result (λ count. count ≡ length self.now.list.items) }
    {
        match u32::try_from(self.list.len()) {
            Ok(count) => Ok(count),
            Err(_) => Err(NoMemory),
        }
    }

    /// Whether the node with this number stands behind those that declare the locals so far.
    fn is_later(&self, ordinal: u32) -> bool
        ensures { IsTrue result → Rise self.now.list.items → AreBefore self.now.list.items ordinal }
    {
        match self.list.last() {
            Some(last) => last.ordinal < ordinal,
            None => true,
        }
    }

    /// The number of the local that a node declares. An object of automatic storage that is named in a
    /// body was declared in it before.
    pub fn number_of(&self, ordinal: u32) -> Result<u32, NoMemory>
        ensures { IfOk result (λ number. lookup (nat_eq ordinal) self.now.numbers.entries ≡ Some number) }
    {
        match self.numbers.get(&ordinal) {
            Some(number) => Ok(*number),
            None => Err(nowhere()),
        }
    }

    /// One more local. They are put in the order of the text.
    fn put(&mut self, local: Local) -> Result<(), NoMemory>
        ensures { OnOk result (PutsAmong self.old self.new local) }
    {
        if !self.is_later(local.ordinal) {
            return Err(nowhere());
        }
        let number = self.count()?;
        put_number(&mut self.numbers, local.ordinal, number)?;
        self.list.push(local)?;
        Ok(())
    }

    /// The locals, behind their body.
    pub fn into_list(self) -> Vec<Local>
        ensures { result ≡ self.list }
    {
        let Locals { list, .. } = self;
        list
    }
}

/// Whether an object of automatic storage is a slot: a scalar whose address nothing in
/// the text takes (C99 6.2.5, 21).
fn is_slot(walk: &Elaborator, ty: TypeId, ordinal: u32) -> Result<bool, NoMemory>
    ensures known { OnOk result (IsKnown walk.now.types ty) }
    ensures slot { IfOk result (λ slot. (slot ≡ true) ↔ IsSlotOf walk.now ty ordinal) }
{
    let types = walk.types.table();
    let ty = ExprType::Listed(known(types, ty)?);
    Ok(is_scalar(types, &ty) && !walk.records.is_taken(ordinal))
}

/// One more local of the body whose tree is made.
pub fn put_local(
    walk: &mut Elaborator,
    name: Name,
    ty: TypeId,
    spot: Spot,
    ordinal: u32,
) -> Result<(), NoMemory>
    ensures goes_on { OnOk result (GoesOn walk.old walk.new) }
    ensures puts { OnOk result (PutsLocalOf walk.old walk.new name ty spot ordinal) }
{
    let is_slot = is_slot(walk, ty, ordinal)?;
    walk.locals.put(Local {
        name,
        ty,
        spot,
        ordinal,
        is_slot,
    })?;
    Ok(())
}
