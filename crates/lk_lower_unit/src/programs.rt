//! The program that checked sources become.
ghost use Rattle.std.specs.Prelude.{◌≡◌, ◌≢◌, ◌<◌, ◌↔◌, true, All, IfOk, IsTrue, OnOk, length, Err};
ghost use Rattle.lk_facts.specs.InRange.{IsInRange};
ghost use Rattle.lk_facts.specs.Lowered.{IsLowered};
ghost use Rattle.lk_lower_expr.specs.Programs.{HasMorePlaces, IsMadeOf};
ghost use Rattle.lk_lower_parts.specs.Cells.{IsPlaceIn};
ghost use Rattle.lk_lower_parts.specs.declared.fault.LowerFault.TheVariants.{TooManyPlaces, TooManyPoints};
ghost use Rattle.lk_lower_parts.specs.FunctionNumbers.{AreFunctionNumbers};
ghost use Rattle.lk_lower_parts.specs.Gathers.{HaveKnownTypes};
ghost use Rattle.lk_lower_parts.specs.MadeFunctions.{HaveSlots};
ghost use Rattle.lk_lower_parts.specs.Wholes.{IsWhole};
ghost use Rattle.lk_lower_unit.specs.Lowers.{ArePlaceNodes, IsTested};
ghost use Rattle.lk_lower_unit.specs.Made.{HasMorePartedPlaces, HasVoidParts, IsCode, IsProgramOf, IsRest};
ghost use Rattle.lk_lower_unit.specs.Placed.{AreAlive, AreCounted, AreFound, AreLive};
ghost use Rattle.lk_lower_unit.specs.PointNumbers.{ArePointNumbers, HasMorePoints};
ghost use Rattle.lk_lower_unit.specs.Wholes.{IsOfSources};

use crate::bases::Bases;
use crate::fault::CountFault;
use crate::place::all_points;
use crate::points::number_points;
use lk_base::{NoMemory, Seq};
use lk_facts::{Function, Initial, Point, Points, Program, Root, live_points};
use lk_lower_parts::{
    AllPlaces, FunctionNumbers, Given, LowerFault, Main, Numbered, all_places, give_sites, main_of,
    number_functions, number_roots_and_slots, pointer_rows, void_parts,
};
use lk_point_statics::are_statics;
use lk_point_types::have_types;
use lk_point_ways::keep_ways;
use lk_typed::Whole;
use lk_types::{TypeId, TypeTable};
use std::alloc::Global;

/// The numbers of the points of the program.
fn points_of(alloc: Global, whole: &Whole) -> Result<Bases, LowerFault>
    ensures ok { IfOk result (ArePointNumbers whole.now) }
    ensures many { result ≡ Err TooManyPoints → HasMorePoints whole.now 65536 }
    ensures places { result ≢ Err TooManyPlaces }
{
    match number_points(alloc, whole) {
        Ok(bases) => Ok(bases),
        Err(CountFault::TooMany) => Err(LowerFault::TooManyPoints),
        Err(CountFault::NoMemory) => Err(LowerFault::NoMemory),
    }
}

/// Whether these numbers are of points, of which there are so many.
fn are_below(next: &[u32], count: usize) -> bool
    ensures { IsTrue result ↔ All (λ q. q < count) next.now }
{
    next.iter().all(|q| (*q as usize) < count)
}

/// Whether each point leads to points.
fn lead_to_points(points: &[Point], count: usize) -> bool
    ensures { IsTrue result ↔ All (λ point. All (λ q. q < count) point.next) points.now }
{
    points
        .iter()
        .all(|point| are_below(point.next.list(), count))
}

/// Whether each function begins at a point.
fn begin_at_points(functions: &[Function], count: usize) -> bool
    ensures { IsTrue result ↔ All (λ function. function.entry < count) functions.now }
{
    functions
        .iter()
        .all(|function| (function.entry as usize) < count)
}

/// Which points are live. Each point leads to points, and each function begins at one.
fn live(alloc: Global, points: &[Point], functions: &[Function]) -> Result<Vec<bool>, NoMemory>
    ensures long { IfOk result (λ live. length live.items ≡ length points.now) }
    ensures exact { IfOk result (λ live. AreLive functions.now points.now live.items) }
{
    if !lead_to_points(points, points.len()) || !begin_at_points(functions, points.len()) {
        return Err(NoMemory);
    }
    live_points(alloc, points, functions)
}

/// Says of each point whether it is live.
fn give_life(alloc: Global, points: &mut Vec<Point>, functions: &[Function]) -> Result<(), NoMemory>
    ensures { OnOk result (AreAlive functions.now points.old.items points.new.items) }
{
    let live = live(alloc, points, functions)?;
    for p in 0..points.len() {
        points[p].live = live[p];
    }
    Ok(())
}

/// Whether points keep what the analysis asks of them: types, the ways of control, and what static storage
/// begins with. What is made of a program's typed trees keeps it.
fn are_tested(alloc: Global, points: &Points) -> Result<bool, NoMemory>
    ensures { IfOk result (λ are. are ≡ true → IsTested points.now) }
{
    let statics = are_statics(alloc, points)?;
    Ok(statics && keep_ways(points) && have_types(points))
}

/// The points of these parts. All numbers in them are in range.
fn made(alloc: Global, program: Program) -> Result<Points, NoMemory>
    ensures is { IfOk result (λ points. points ≡ program) }
    ensures in_range { IfOk result IsInRange }
    ensures tested { IfOk result IsTested }
{
    if !Points::fits(&program) {
        return Err(NoMemory);
    }
    let points = Points::new(program);
    if are_tested(alloc, &points)? {
        Ok(points)
    } else {
        Err(NoMemory)
    }
}

/// The types of the program, with the Parts of `void`. Each type that is one is in the table, once.
fn with_parts(alloc: Global, types: TypeTable, points: &[Point]) -> Result<TypeTable, NoMemory>
    ensures { IfOk result (HasVoidParts types points.now) }
{
    let parts = void_parts(alloc, &types, points)?;
    if types.are_parts(&parts) {
        Ok(types.with_parts(parts))
    } else {
        Err(NoMemory)
    }
}

/// The parts of the program but for its points and functions.
#[derive(Drop)]
struct Rest {
    roots: Vec<Root>,
    types: TypeTable,
    places: AllPlaces,
    initials: Seq<Initial>,
}

/// What the program has besides its points and functions.
fn rest_of(
    given: &Given<'_>,
    points: &[Point],
    roots: Vec<Root>,
    types: TypeTable,
) -> Result<Rest, LowerFault>
    requires { HaveKnownTypes (length types.types) roots.items }
    ensures nodes { IfOk result (λ rest. All (IsPlaceIn rest.types) rest.places.places) }
    ensures rest { IfOk result (IsRest given.now roots.items types) }
    ensures parts { IfOk result (λ rest. HasVoidParts types points.now rest.types) }
    ensures places { result ≡ Err TooManyPlaces → HasMorePartedPlaces types roots.items }
    ensures points { result ≢ Err TooManyPoints }
{
    let types = with_parts(given.alloc, types, points)?;
    let places = all_places(given.alloc, &types, &roots)?;
    let initials = given.initials()?;
    Ok(Rest {
        roots,
        types,
        places,
        initials,
    })
}

/// The points and functions of the program, with what follows from one another: which
/// points are live, and the sites.
#[derive(Drop)]
struct Code {
    points: Vec<Point>,
    functions: Vec<Function>,
    sites: u32,
}

/// The points and functions of the program.
fn code_of(
    given: &Given<'_>,
    types: &TypeTable,
    slots: Vec<Seq<TypeId>>,
    count: u32,
) -> Result<Code, NoMemory>
    requires found { AreFound given.now types.now }
    requires counted { AreCounted given.now types.now count }
    requires slots { HaveSlots given.now slots.items }
    ensures { IfOk result (IsCode given.now types.now slots.items count) }
{
    let mut points = all_points(given, types, count)?;
    let mut functions = given.all_functions(&slots)?;
    give_life(given.alloc, &mut points, &functions)?;
    let sites = give_sites(given.alloc, &mut points, &mut functions)?;
    Ok(Code {
        points,
        functions,
        sites,
    })
}

/// The program of these parts.
fn put_together(code: Code, rest: Rest, main: Main) -> Program
    ensures points { result.points ≡ code.points.items }
    ensures functions { result.functions ≡ code.functions.items }
    ensures roots { result.roots ≡ rest.roots.items }
    ensures types { result.types ≡ rest.types }
    ensures places { result.places ≡ rest.places.places }
    ensures locations { result.locations ≡ rest.places.locations }
    ensures initials { result.initials ≡ rest.initials }
    ensures main { result.main ≡ main.function }
    ensures sites { result.sites ≡ code.sites }
{
    let Code {
        points,
        functions,
        sites,
    } = code;
    let Rest {
        roots,
        types,
        places: AllPlaces { places, locations },
        initials,
    } = rest;
    Program {
        points: Seq::new(points),
        functions: Seq::new(functions),
        roots: Seq::new(roots),
        types,
        places,
        locations,
        initials,
        main: main.function,
        sites,
    }
}

/// The program, by the numbers that are given.
fn program_of(
    given: &Given<'_>,
    main: Main,
    count: u32,
    slots: Vec<Seq<TypeId>>,
    roots: Vec<Root>,
    types: TypeTable,
) -> Result<Points, LowerFault>
    requires found { AreFound given.now types }
    requires counted { AreCounted given.now types count }
    requires slots { HaveSlots given.now slots.items }
    requires typed { HaveKnownTypes (length types.types) roots.items }
    ensures nodes { IfOk result ArePlaceNodes }
    ensures made { IfOk result (IsProgramOf given.now types main count slots.items roots.items) }
    ensures lowered { IfOk result IsLowered }
    ensures places { result ≡ Err TooManyPlaces → HasMorePartedPlaces types roots.items }
    ensures points { result ≢ Err TooManyPoints }
{
    let code = code_of(given, &types, slots, count)?;
    let rest = rest_of(given, &code.points, roots, types)?;
    let points = made(given.alloc, put_together(code, rest, main))?;
    Ok(points)
}

/// The program, by the numbers of its points and functions.
fn assemble(
    alloc: Global,
    whole: &Whole,
    bases: &Bases,
    functions: &FunctionNumbers,
) -> Result<Points, LowerFault>
    requires whole { IsWhole whole.now }
    requires points { ArePointNumbers whole.now bases.now }
    requires functions { AreFunctionNumbers whole.now.sources functions.now }
    ensures nodes { IfOk result ArePlaceNodes }
    ensures made { IfOk result (IsMadeOf whole.now) }
    ensures lowered { IfOk result IsLowered }
    ensures places { result ≡ Err TooManyPlaces → HasMorePlaces whole.now 65536 }
    ensures points { result ≢ Err TooManyPoints }
{
    let main = main_of(whole, functions)?;
    let mut types = whole.types.copy()?;
    let pointers = pointer_rows(alloc, whole, &mut types)?;
    let points = bases.bases.list();
    let Numbered {
        roots,
        by_node,
        slots,
    } = number_roots_and_slots(alloc, whole, functions, main, points, &mut types)?;
    let given = Given {
        alloc,
        whole,
        functions,
        points,
        by_node: &by_node,
        pointers: &pointers,
    };
    types.is_table();
    program_of(&given, main, bases.count, slots, roots, types)
}

/// The points of a program, with its functions, roots, places and types, and what its storage begins with.
/// The program is put together of typed trees of sources.
///
/// `TooManyPoints` comes exactly where it would have more than 65,536 points, unless memory ends first;
/// `TooManyPlaces` only where that isn't so and its locations and lock places together are more than 65,536.
pub fn lower(alloc: Global, whole: &Whole) -> Result<Points, LowerFault>
    requires { IsOfSources whole.now }
    ensures nodes { IfOk result ArePlaceNodes }
    ensures made { IfOk result (IsMadeOf whole.now) }
    ensures lowered { IfOk result IsLowered }
    ensures few { OnOk result (HasMorePoints whole.now 65536 → ⊥) }
    ensures many { result ≡ Err TooManyPoints → HasMorePoints whole.now 65536 }
    ensures places { result ≡ Err TooManyPlaces
        → (HasMorePoints whole.now 65536 → ⊥) × HasMorePlaces whole.now 65536 }
{
    let bases = points_of(alloc, whole)?;
    let functions = number_functions(alloc, whole)?;
    assemble(alloc, whole, &bases, &functions)
}
