//! The steps of a source.
ghost use Rattle.std.specs.Prelude.{◌≡◌, ◌++◌, ◌+◌, [], map, IfOk, OnOk, slice_get};
ghost use Rattle.lk_lower_expr.specs.Laid.{laid};
ghost use Rattle.lk_lower_expr.specs.Naming.{AreFew, names_of};
ghost use Rattle.lk_lower_expr.specs.Statements.{body_walk};
ghost use Rattle.lk_lower_unit.specs.Bodies.{IsSameSource, all_standing, named_local, names_by_locals, places_by_locals, standing, steps_of_bodies, steps_of_static, steps_of_statics, walk_of_body};
ghost use Rattle.lk_lower_unit.specs.Stands.{AreSteps};
ghost use Rattle.lk_lower_unit.specs.Tables.{StandInPrograms};

use crate::nodes::{LocalCells, Nodes};
use crate::standing::StandingStep;
use crate::static_object::push_static;
use lk_base::{NoMemory, Seq};
use lk_lower_expr::{LocalNames, Lowering, NamedStep, SourceNames};
use lk_lower_stmt::{BodyLowering, Cells, Lowered};
use lk_typed::{Body, Local, StaticObject, Storage, TypedUnit};
use lk_types::TypeTable;
use std::alloc::Global;

/// The lowering of a source: what it reads beside the numbers of the source.
#[derive(Drop)]
pub struct UnitLowering<'a, N: Nodes> {
    pub alloc: Global,
    pub unit: &'a TypedUnit,
    /// The nodes of the program's types.
    pub nodes: &'a N,
    /// The number of the function of its first body.
    pub first: u32,
    /// What is written in place of a function where there is none.
    pub none: u32,
}

/// Puts the steps of a function at the end of others.
fn add(function: u32, steps: Vec<NamedStep>, out: &mut Vec<StandingStep>) -> Result<(), NoMemory>
    ensures { OnOk result (out.new.items ≡ out.old.items ++ map (standing function) steps.items) }
{
    for step in steps {
        out.push(StandingStep { step, function })?;
    }
    Ok(())
}

/// The locals of a body with their numbers.
fn numbered_locals(
    alloc: Global,
    locals: &[Local],
    names: &SourceNames,
) -> Result<Seq<LocalNames>, NoMemory>
    ensures { IfOk result (λ list. list ≡ map (named_local names.now.by_node) locals.now) }
{
    let mut list = Vec::new(alloc);
    for local in locals {
        list.push(LocalNames {
            ordinal: local.ordinal,
            spot: local.spot,
            ty: local.ty,
            is_slot: local.is_slot,
            number: names.node_number(local.ordinal),
        })?;
    }
    Ok(Seq::new(list))
}

/// The number of the next function.
fn next(function: u32) -> Result<u32, NoMemory>
    ensures { IfOk result (λ next. next ≡ function + 1) }
{
    function.checked_add(1).ok_or(NoMemory)
}

/// The steps of a body, by the numbers of its source and its locals, and by the places of the cells of these.
fn body_steps<'a, C: Cells>(
    alloc: Global,
    table: &'a TypeTable,
    names: &'a SourceNames,
    cells: &'a C,
    body: &Body,
) -> Result<Vec<NamedStep>, NoMemory>
    requires { AreFew names.now }
    ensures { IfOk result (λ steps. steps.items ≡ laid (body_walk (names_of table.now names.now)
        (C.places cells.now) body.now.ordinal body.now.spot body.now.block) []) }
{
    let source = Lowering {
        alloc,
        table,
        names,
    };
    let lowering = BodyLowering { source, cells };
    let mut lowered = Lowered {
        steps: Vec::new(alloc),
        labelled: Vec::new(alloc),
    };
    lowering.push_body(body, &mut lowered)?;
    Ok(lowered.steps)
}

impl<N: Nodes> UnitLowering<'_, N> {
    /// Adds the steps of a body, which is the function of that number.
    fn push_body(
        &self,
        body: &Body,
        function: u32,
        names: &mut SourceNames,
        out: &mut Vec<StandingStep>,
    ) -> Result<(), NoMemory>
        requires { AreFew names.old }
        ensures steps { OnOk result (out.new.items ≡ out.old.items ++ all_standing function
            (walk_of_body (names_by_locals self.now.unit.now.types names.old)
            (places_by_locals (N.node self.now.nodes.now) names.old) body.now)) }
        ensures kept { IsSameSource names.old names.new }
    {
        names.locals = numbered_locals(self.alloc, body.locals.list(), names)?;
        let cells = LocalCells {
            names,
            nodes: self.nodes,
        };
        let steps = body_steps(self.alloc, &self.unit.types, names, &cells, body)?;
        add(function, steps, out)
    }

    /// Adds the steps of the bodies.
    fn push_bodies(
        &self,
        names: &mut SourceNames,
        out: &mut Vec<StandingStep>,
    ) -> Result<(), NoMemory>
        requires { AreFew names.old }
        ensures steps { OnOk result (out.new.items ≡ out.old.items ++ steps_of_bodies
            (names_by_locals self.now.unit.now.types names.old)
            (places_by_locals (N.node self.now.nodes.now) names.old) self.now.first self.now.unit.now.bodies) }
        ensures kept { IsSameSource names.old names.new }
    {
        let mut function = self.first;
        for body in self.unit.bodies.list() {
            self.push_body(body, function, names, out)?;
            function = next(function)?;
        }
        Ok(())
    }

    /// The steps of the initialiser of an object of static storage.
    fn static_steps(
        &self,
        object: &StaticObject,
        names: &SourceNames,
    ) -> Result<Vec<NamedStep>, NoMemory>
        requires { AreFew names.now }
        ensures { IfOk result (λ steps. map (standing self.now.none) steps.items ≡ steps_of_static
            (λ _. names_of self.now.unit.now.types names.now) self.now.none object.now
            (slice_get self.now.unit.now.entities object.now.entity)) }
    {
        let mut steps = Vec::new(self.alloc);
        let Some(entity) = self.unit.entities.list().get(object.entity as usize) else {
            return Ok(steps);
        };
        let declared = LocalNames {
            ordinal: object.ordinal,
            spot: object.spot,
            ty: entity.ty,
            is_slot: false,
            number: names.object_number(Storage::Entity(object.entity)),
        };
        let source = Lowering {
            alloc: self.alloc,
            table: &self.unit.types,
            names,
        };
        push_static(&source, &declared, object.parts.list(), &mut steps)?;
        Ok(steps)
    }

    /// Adds the steps of the initialisers of objects of static storage.
    fn push_statics(&self, names: &SourceNames, out: &mut Vec<StandingStep>) -> Result<(), NoMemory>
        requires { AreFew names.now }
        ensures { OnOk result (out.new.items ≡ out.old.items ++ steps_of_statics
            (λ _. names_of self.now.unit.now.types names.now) self.now.none self.now.unit.now.entities
            self.now.unit.now.objects) }
    {
        for object in self.unit.objects.list() {
            let steps = self.static_steps(object, names)?;
            add(self.none, steps, out)?;
        }
        Ok(())
    }

    /// The steps of the source, each with the function in which it stands: in each program with these numbers
    /// they are exactly those of the source. Of the numbers the locals are those of a body at hand, and what
    /// they are before is of no account.
    ///
    /// `Err` comes for want of memory.
    pub fn steps(&self, names: &mut SourceNames) -> Result<Vec<StandingStep>, NoMemory>
        requires { AreFew names.old }
        ensures steps { IfOk result (λ steps. AreSteps
            (names_by_locals self.now.unit.now.types names.old)
            (places_by_locals (N.node self.now.nodes.now) names.old)
            self.now.unit.now (λ b. self.now.first + b) self.now.none steps.items) }
        ensures programs { IfOk result (λ steps. StandInPrograms self.now.unit.now
            (N.node self.now.nodes.now) self.now.first self.now.none names.old steps.items) }
        ensures kept { IsSameSource names.old names.new }
    {
        names.locals = Seq::new(Vec::new(self.alloc));
        let mut steps = Vec::new(self.alloc);
        self.push_statics(names, &mut steps)?;
        self.push_bodies(names, &mut steps)?;
        Ok(steps)
    }
}
