//! The functions of the program.
ghost use Rattle.std.specs.Prelude.{◌≡◌, ◌<◌, ◌+◌, Some, IfOk, OnOk, get_or, length, map, slice_get, take};
ghost use Rattle.lk_lower_parts.specs.MadeFunctions.{AddsFunctions, AddsMade, AreMade, GivesType, HaveSlots, IsMade, IsOwn, holder_in, holder_with};
ghost use Rattle.lk_lower_parts.specs.Wholes.{IsEntityOf, IsKeptHere};
ghost use Rattle.lk_types.specs.Table.{IsKnown};

use crate::counts::{behind, count_of, declared_at};
use crate::names::{Given, number_at};
use crate::roots::row_of;
use lk_base::{NoMemory, Seq};
use lk_facts::{Function, Holder};
use lk_typed::{Body, Linked, Local, Whole, WholeEntity};
use lk_types::{CType, TypeId, TypeTable};
use std::alloc::Global;

/// What holds a local.
fn holder(local: &Local, function: u32, number: u32) -> Holder
    ensures { result ≡ holder_with local.now.is_slot function number }
{
    if local.is_slot {
        Holder::Slot(function, number)
    } else {
        Holder::Root(number)
    }
}

/// The type of the result of a function. Each body is that of a function.
fn result_of(types: &TypeTable, t: TypeId) -> Result<TypeId, NoMemory>
    requires { IsKnown types.now t }
    ensures { IfOk result (GivesType types.now t) }
{
    match types.get(t) {
        CType::Function { result, .. } => Ok(*result),
        CType::Void
        | CType::Int(_)
        | CType::ThreadId
        | CType::Mutex
        | CType::Cond
        | CType::Pointer(_)
        | CType::Array(_, _)
        | CType::Struct(_)
        | CType::Opaque(_) => Err(NoMemory),
    }
}

/// The point that is a step of a node.
fn point(points: &[u32], node: u32, step: u32) -> Result<u32, NoMemory>
    ensures { IfOk result (λ point. point ≡ get_or points.now node 0 + step) }
{
    behind(number_at(points, node), step)
}

/// The parameters of a body, which are the first of its locals.
fn parameters_of(body: &Body) -> &[Local]
    ensures { result.now ≡ take body.now.parameters body.now.locals }
{
    let locals = body.locals.list();
    let count = body.parameters as usize;
    if count < locals.len() {
        &locals[..count]
    } else {
        locals
    }
}

/// A function of the program while it is made: its body, and what its source says of it.
#[derive(Drop)]
struct Made<'a> {
    linked: &'a Linked,
    /// The place of the source.
    source: u32,
    body: &'a Body,
    /// Its number.
    number: u32,
    /// Of each node of the source the first point, and the root or slot.
    points: &'a [u32],
    by_node: &'a [u32],
}

impl Made<'_> {
    /// What holds its parameters.
    fn parameters(&self, alloc: Global) -> Result<Seq<Holder>, NoMemory>
        ensures { IfOk result (λ list. list ≡ map (holder_in self.now.number self.now.by_node.now)
            (take self.now.body.now.parameters self.now.body.now.locals)) }
    {
        let mut parameters = Vec::new(alloc);
        for local in parameters_of(self.body) {
            let number = number_at(self.by_node, local.ordinal);
            parameters.push(holder(local, self.number, number))?;
        }
        Ok(Seq::new(parameters))
    }

    /// The program's entity of its own.
    fn own<'w>(&self, whole: &'w Whole) -> &'w WholeEntity
        requires { IsKeptHere whole.now self.now.source self.now.linked.now self.now.body.now.entity }
        ensures own { IsOwn whole.now self.now.linked.now self.now.source
            self.now.body.now.entity result.now }
        ensures known { IsKnown whole.now.types result.now.ty }
    {
        let numbers = self.linked.entities.list();
        let entities = whole.entities.list();
        let number = numbers[self.body.entity as usize];
        &entities[number as usize]
    }

    /// The function, of which the slots have these types. It has no site yet.
    fn function(&self, given: &Given<'_>, slots: Seq<TypeId>) -> Result<Function, NoMemory>
        requires { IsEntityOf given.now.whole.now self.now.source self.now.linked.now
            self.now.body.now.entity }
        ensures { IfOk result (IsMade given.now.whole.now self.now.source self.now.linked.now
            self.now.body.now self.now.number self.now.points.now self.now.by_node.now slots) }
    {
        let here = self.own(given.whole);
        let result = result_of(&given.whole.types, here.ty)?;
        let (entity, by) = declared_at(self.linked, self.body.entity);
        let root = number_at(self.by_node, by.ordinal);
        let entry = point(self.points, self.body.ordinal, 0)?;
        let exit = point(self.points, self.body.ordinal, 2)?;
        let parameters = self.parameters(given.alloc)?;
        let name = entity.name.copy()?;
        Ok(Function {
            name,
            root,
            entry,
            exit,
            parameters,
            slots,
            result,
            value_site: None,
        })
    }

    /// Adds the function. Its slots are among those of all functions.
    fn push(
        &self,
        given: &Given<'_>,
        slots: &[Seq<TypeId>],
        functions: &mut Vec<Function>,
    ) -> Result<(), NoMemory>
        requires entity { IsEntityOf given.now.whole.now self.now.source self.now.linked.now
            self.now.body.now.entity }
        requires slots { self.now.number < length slots.now }
        ensures { OnOk result (AddsMade given.now.whole.now self.now.source self.now.linked.now
            self.now.points.now self.now.by_node.now slots.now self.now.body.now self.now.number
            functions.old.items functions.new.items) }
    {
        let types = types_of(given.alloc, slots, self.number)?;
        let function = self.function(given, types)?;
        functions.push(function)?;
        Ok(())
    }
}

/// The types of the slots of a function, once more.
fn types_of(alloc: Global, slots: &[Seq<TypeId>], function: u32) -> Result<Seq<TypeId>, NoMemory>
    requires { function < length slots.now }
    ensures { IfOk result (λ types. slice_get slots.now function ≡ Some types) }
{
    let types = &slots[function as usize];
    Ok(Seq::new(Vec::from_slice(alloc, types.list())?))
}

impl Given<'_> {
    /// Adds the functions of a source, of which the slots are among those of all functions, behind
    /// those of the sources before it.
    fn push_functions(
        &self,
        source: u32,
        slots: &[Seq<TypeId>],
        functions: &mut Vec<Function>,
    ) -> Result<(), NoMemory>
        requires slots { HaveSlots self.now slots.now }
        requires within { source < length self.now.whole.now.sources }
        requires behind { length functions.old.items ≡ get_or self.now.functions.now.first source 0 }
        ensures { OnOk result (AddsFunctions self.now slots.now source
            functions.old.items functions.new.items) }
    {
        let linked = self.linked(source as usize);
        let points = row_of(self.points, source as usize);
        let by_node = row_of(self.by_node, source as usize);
        for body in linked.unit.bodies.list() {
            let made = Made {
                linked,
                source,
                body,
                number: count_of(functions.len())?,
                points,
                by_node,
            };
            made.push(self, slots, functions)?;
        }
        Ok(())
    }

    /// The functions of the program, of which the slots have these types. None has a site yet.
    pub fn all_functions(&self, slots: &[Seq<TypeId>]) -> Result<Vec<Function>, NoMemory>
        requires { HaveSlots self.now slots.now }
        ensures { IfOk result (λ functions. AreMade self.now slots.now functions.items) }
    {
        let mut functions = Vec::new(self.alloc);
        for source in 0..count_of(self.whole.sources.len())? {
            self.push_functions(source, slots, &mut functions)?;
        }
        Ok(functions)
    }
}
