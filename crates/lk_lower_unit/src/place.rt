//! The points of sources, each at its number.
ghost use Rattle.std.specs.Prelude.{◌≡◌, ◌<◌, All, IfOk, IsSome, OnOk, None, Some, length, map, slice_get};
ghost use Rattle.lk_lower_expr.specs.Naming.{AreFew};
ghost use Rattle.lk_lower_unit.specs.Bodies.{IsSameSource};
ghost use Rattle.lk_lower_unit.specs.Placed.{AreAllPlaced, AreCounted, AreFound, AreStepsOf, HasNumber, PlacesAll, PlacesOne, PlacesSource};
ghost use Rattle.lk_lower_unit.specs.Placed as spec;

use crate::nodes::Nodes;
use crate::standing::StandingStep;
use crate::unit::UnitLowering;
use lk_base::{CellStep, NoMemory};
use lk_facts::Point;
use lk_lower_expr::{NamedStep, SourceNames, Step, cell_node};
use lk_lower_parts::Given;
use lk_types::{NodeId, TypeId, TypeTable};
use std::alloc::Global;

/// The nodes of the program's types.
#[derive(Drop)]
struct ProgramNodes<'a> {
    types: &'a TypeTable,
}

impl Nodes for ProgramNodes<'_> {
    ghost use Rattle.lk_lower_expr.specs.Cells.{cell_node};

    ghost node = { λ nodes. cell_node nodes.types.now };

    fn node(&self, ty: TypeId, path: &[CellStep]) -> NodeId {
        cell_node(self.types, ty, path)
    }
}

/// The point of a step. Whether it is live, and its site, isn't known yet.
fn point_of(is: Step, function: u32) -> Point
    ensures { result ≡ spec.point_of is function }
{
    let Step {
        does,
        gives,
        next,
        spot,
    } = is;
    Point {
        action: does,
        value: gives,
        next,
        function,
        spot,
        live: false,
        site: None,
    }
}

/// So many points, of which none is known.
fn unknown(alloc: Global, count: u32) -> Result<Vec<Option<Point>>, NoMemory>
    ensures { IfOk result (λ points. length points.items ≡ count) }
{
    let mut points = Vec::new(alloc);
    for _ in 0..count {
        points.push(None)?;
    }
    Ok(points)
}

/// That no point stands at a number yet. Each number is that of one step.
fn is_free(points: &Vec<Option<Point>>, number: usize) -> Result<(), NoMemory>
    requires { number < length points.now.items }
    ensures { OnOk result (slice_get points.now.items number ≡ Some None) }
{
    match &points[number] {
        None => Ok(()),
        Some(_) => Err(NoMemory),
    }
}

/// Puts the point of a step at its number.
fn place_step(
    names: &SourceNames,
    one: StandingStep,
    points: &mut Vec<Option<Point>>,
) -> Result<(), NoMemory>
    requires few { AreFew names.now }
    requires step { HasNumber names.now (length points.old.items) one }
    ensures { OnOk result (PlacesOne names.now one points.old.items points.new.items) }
{
    let StandingStep {
        step: NamedStep { node, step, is },
        function,
    } = one;
    let number = names.at(node, step) as usize;
    is_free(points, number)?;
    points[number] = Some(point_of(is, function));
    Ok(())
}

/// Puts the points of steps at their numbers.
fn place(
    names: &SourceNames,
    steps: Vec<StandingStep>,
    points: &mut Vec<Option<Point>>,
) -> Result<(), NoMemory>
    requires few { AreFew names.now }
    requires steps { All (HasNumber names.now (length points.old.items)) steps.items }
    ensures { OnOk result (PlacesAll names.now steps.items points.old.items points.new.items) }
{
    for one in steps {
        place_step(names, one, points)?;
    }
    Ok(())
}

/// The points, each of which is known.
fn known(alloc: Global, points: Vec<Option<Point>>) -> Result<Vec<Point>, NoMemory>
    requires { All IsSome points.items }
    ensures { IfOk result (λ all. map Some all.items ≡ points.items) }
{
    let mut all = Vec::new(alloc);
    for point in points {
        match point {
            Some(point) => all.push(point)?,
            None => unreachable!(),
        }
    }
    Ok(all)
}

/// The steps of a source, by the numbers of its nodes.
fn steps_of(
    given: &Given<'_>,
    types: &TypeTable,
    source: usize,
    names: &mut SourceNames,
) -> Result<Vec<StandingStep>, NoMemory>
    requires few { AreFew names.old }
    requires within { source < length given.now.whole.now.sources }
    ensures few { AreFew names.new }
    ensures steps { IfOk result (λ steps. AreStepsOf given.now types.now source names.old steps.items) }
    ensures kept { IsSameSource names.old names.new }
{
    let linked = given.linked(source);
    let nodes = ProgramNodes { types };
    let lowering = UnitLowering {
        alloc: given.alloc,
        unit: &linked.unit,
        nodes: &nodes,
        first: given.first(source),
        none: given.functions.count,
    };
    lowering.steps(names)
}

/// Puts the points of a source at their numbers, where there are so many points.
fn place_source(
    given: &Given<'_>,
    types: &TypeTable,
    source: usize,
    points: &mut Vec<Option<Point>>,
) -> Result<(), NoMemory>
    requires found { AreFound given.now types.now }
    requires counted { AreCounted given.now types.now (length points.old.items) }
    requires within { source < length given.now.whole.now.sources }
    ensures { OnOk result (PlacesSource given.now types.now source points.old.items points.new.items) }
{
    let mut names = given.names(source)?;
    let steps = steps_of(given, types, source, &mut names)?;
    place(&names, steps, points)
}

/// The points of the program, by the numbers that are given.
pub(crate) fn all_points(
    given: &Given<'_>,
    types: &TypeTable,
    count: u32,
) -> Result<Vec<Point>, NoMemory>
    requires found { AreFound given.now types.now }
    requires counted { AreCounted given.now types.now count }
    ensures { IfOk result (λ points. AreAllPlaced given.now types.now count points.items) }
{
    let mut points = unknown(given.alloc, count)?;
    for source in 0..given.whole.sources.len() {
        place_source(given, types, source, &mut points)?;
    }
    known(given.alloc, points)
}
