//! The locations and lock places of the program.
ghost use Rattle.std.specs.Prelude.{◌≡◌, ◌≢◌, ◌↔◌, ◌<◌, ◌≤◌, ◌+◌, ◌++◌, ◌∷◌, [], All, Err, IfOk, IsTrue, OnOk, length};
ghost use Rattle.lk_facts.specs.Places.{AreDifferent, IsMissing};
ghost use Rattle.lk_facts.specs.Program.{place_of};
ghost use Rattle.lk_lower_parts.specs.Cells.{ArePlacesOf, HasMorePlacesOf, IsPlaceIn};
ghost use Rattle.lk_lower_parts.specs.Gathers.{HaveKnownTypes};
ghost use Rattle.lk_lower_parts.specs.Within.{AddsCells, AreCells, AreInOrder, AreRoots, HasLower, HaveLower, HaveRoots, IsInInner, IsInMembers, IsInObject, IsInPart, IsInRoot, count_of_cells, has_cells};
ghost use Rattle.lk_lower_parts.specs.declared.fault.LowerFault.TheVariants.{TooManyPlaces, TooManyPoints};
ghost use Rattle.lk_types.specs.Nodes.{IsNode, IsSel};
ghost use Rattle.lk_types.specs.Table.{fields_of};
ghost use Rattle.lk_types.specs.declared.c_type.CType.TheVariants.{Struct};

use crate::counts::{behind, count_of};
use crate::fault::LowerFault;
use crate::text::are_in_order;
use lk_base::{MOST_LABELS, NoMemory, Spot};
use lk_facts::{Place, Places, Root, RootKind};
use lk_types::{CType, NodeId, Sel, TypeTable};
use std::alloc::Global;

/// Whether the parts of a root's object are cells that can be written.
fn has_cells(kind: RootKind) -> bool
    ensures { result ≡ has_cells kind }
{
    match kind {
        RootKind::Global
        | RootKind::Static
        | RootKind::Local
        | RootKind::Heap { .. }
        | RootKind::Argv
        | RootKind::Args => true,
        RootKind::Text | RootKind::Function => false,
    }
}

/// The cells of the roots while they are found, in the order of their places.
#[derive(Drop)]
struct Cells {
    /// Those with values.
    values: Vec<Place>,
    /// The mutexes.
    locks: Vec<Place>,
}

/// A part of a root's object.
#[derive(Drop)]
struct PartOf {
    /// The root.
    root: u32,
    /// The node that the part is in the root's type.
    node: NodeId,
}

/// Adds the place of a part.
fn push_place(part: &PartOf, places: &mut Vec<Place>) -> Result<(), NoMemory>
    ensures { OnOk result (places.new.items ≡ places.old.items ++ place_of part.now.root part.now.node ∷ []) }
{
    let NodeId { base, number } = part.node;
    let node = NodeId { base, number };
    places.push(Place {
        root: part.root,
        node,
    })?;
    Ok(())
}

impl Cells {
    /// Whether they are more than there may be.
    fn is_full(&self) -> bool
        ensures { IsTrue result ↔ (65536 < count_of_cells self.now) }
    {
        self.values.len() > MOST_LABELS as usize
            || self.locks.len() > MOST_LABELS as usize
            || self.values.len() + self.locks.len() > MOST_LABELS as usize
    }

    /// Adds a cell with a value.
    fn push_value(&mut self, part: &PartOf) -> Result<(), NoMemory>
        ensures values { OnOk result
            (self.new.values.items ≡ self.old.values.items ++ place_of part.now.root part.now.node ∷ []) }
        ensures locks { OnOk result (self.new.locks.items ≡ self.old.locks.items) }
    {
        push_place(part, &mut self.values)
    }

    /// Adds a mutex.
    fn push_lock(&mut self, part: &PartOf) -> Result<(), NoMemory>
        ensures values { OnOk result (self.new.values.items ≡ self.old.values.items) }
        ensures locks { OnOk result
            (self.new.locks.items ≡ self.old.locks.items ++ place_of part.now.root part.now.node ∷ []) }
    {
        push_place(part, &mut self.locks)
    }

    /// Adds the cells of the part to which a step leads.
    #[cycle(adds)]
    fn push_inner(&mut self, types: &TypeTable, part: &PartOf, sel: Sel) -> Result<(), NoMemory>
        requires node { IsNode types.now part.now.node }
        requires sel { IsSel types.now sel }
        requires lower { HasLower types.now part.now.node sel }
        ensures { OnOk result (AddsCells types.now (IsInInner types.now part.now sel) self.old self.new) }
    {
        match types.step_node(part.node, sel) {
            Some(NodeId { base, number }) => {
                let inner = PartOf {
                    root: part.root,
                    node: NodeId { base, number },
                };
                self.push(types, &inner)
            }
            None => unreachable!(),
        }
    }

    /// Adds the cells of so many members of a struct.
    #[cycle(adds)]
    fn push_members(&mut self, types: &TypeTable, part: &PartOf, count: u32) -> Result<(), NoMemory>
        requires node { IsNode types.now part.now.node }
        requires lower { HaveLower types.now part.now.node count }
        ensures { OnOk result
            (AddsCells types.now (IsInMembers types.now part.now count) self.old self.new) }
    {
        for k in 0..count {
            self.push_inner(types, part, Sel::Field(k))?;
        }
        Ok(())
    }

    /// Adds the cells of a part, unless they are too many already.
    #[cycle(adds)]
    fn push(&mut self, types: &TypeTable, part: &PartOf) -> Result<(), NoMemory>
        requires node { IsNode types.now part.now.node }
        ensures { OnOk result (AddsCells types.now (IsInPart types.now part.now) self.old self.new) }
    {
        if self.is_full() {
            return Ok(());
        }
        match types.get(types.node_type(part.node)) {
            CType::Int(_) | CType::ThreadId | CType::Pointer(_) => self.push_value(part),
            CType::Mutex => self.push_lock(part),
            CType::Array(_, _) => self.push_inner(types, part, Sel::Element),
            CType::Struct(s) => self.push_members(types, part, count_members(types, *s)?),
            CType::Void | CType::Cond | CType::Function { .. } | CType::Opaque(_) => Ok(()),
        }
    }
}

/// How many members a struct has.
fn count_members(types: &TypeTable, s: u32) -> Result<u32, NoMemory>
    requires { s < length types.now.members }
    ensures { IfOk result (λ count. count ≡ length (fields_of types.now (Struct s))) }
{
    count_of(types.members(s).len())
}

/// A root, by its place in the text and its number: what stands first has the least of these.
type InText = (u32, u32, u32, u32);

/// The roots with their places in the text.
fn in_text(alloc: Global, roots: &[Root]) -> Result<Vec<InText>, NoMemory>
    ensures have { IfOk result (λ order. HaveRoots order.items (length roots.now)) }
    ensures only { IfOk result (λ order. AreRoots order.items (length roots.now)) }
{
    let mut order = Vec::new(alloc);
    let mut number = 0;
    for root in roots {
        let Spot { file, line, col } = root.spot;
        order.push((file, line, col, number))?;
        number = behind(number, 1)?;
    }
    Ok(order)
}

/// The roots in the order of their places in the text, those of one place in that of their numbers.
fn in_order(alloc: Global, roots: &[Root]) -> Result<Vec<InText>, NoMemory>
    ensures have { IfOk result (λ order. HaveRoots order.items (length roots.now)) }
    ensures only { IfOk result (λ order. AreRoots order.items (length roots.now)) }
{
    let mut order = in_text(alloc, roots)?;
    order.sort()?;
    Ok(order)
}

/// Adds the cells of a root, where they can be written.
fn push_root(
    types: &TypeTable,
    roots: &[Root],
    root: u32,
    cells: &mut Cells,
) -> Result<(), NoMemory>
    requires within { root < length roots.now }
    requires typed { HaveKnownTypes (length types.now.types) roots.now }
    ensures { OnOk result
        (AddsCells types.now (IsInRoot types.now roots.now root) cells.old cells.new) }
{
    let object = &roots[root as usize];
    if !has_cells(object.kind) {
        return Ok(());
    }
    let whole = PartOf {
        root,
        node: types.start_node(object.ty),
    };
    cells.push(types, &whole)
}

/// The cells of all roots, root by root as these stand in the text.
fn all_cells(alloc: Global, types: &TypeTable, roots: &[Root]) -> Result<Cells, NoMemory>
    requires { HaveKnownTypes (length types.now.types) roots.now }
    ensures { IfOk result (AreCells types.now (IsInObject types.now roots.now)) }
{
    let order = in_order(alloc, roots)?;
    let mut cells = Cells {
        values: Vec::new(alloc),
        locks: Vec::new(alloc),
    };
    for (_, _, _, root) in &order {
        push_root(types, roots, *root, &mut cells)?;
    }
    Ok(cells)
}

/// The cells of all roots. They are found in the order of their places.
fn cells_of(alloc: Global, types: &TypeTable, roots: &[Root]) -> Result<Cells, NoMemory>
    requires { HaveKnownTypes (length types.now.types) roots.now }
    ensures cells { IfOk result (AreCells types.now (IsInObject types.now roots.now)) }
    ensures order { IfOk result (AreInOrder roots.now) }
{
    let cells = all_cells(alloc, types, roots)?;
    are_in_order(roots, &cells.values)?;
    are_in_order(roots, &cells.locks)?;
    Ok(cells)
}

/// Puts a place behind others.
fn put(place: Place, places: &mut Places) -> Result<(), NoMemory>
    requires missing { IsMissing places.old place }
    requires room { length places.old < 65536 }
    ensures { OnOk result (places.new ≡ places.old ++ place ∷ []) }
{
    places.put(place.root, place.node)?;
    Ok(())
}

/// Puts places behind others.
fn put_all(list: &[Place], places: &mut Places) -> Result<(), NoMemory>
    requires different { AreDifferent (places.old ++ list.now) }
    requires room { length places.old + length list.now ≤ 65536 }
    ensures { OnOk result (places.new ≡ places.old ++ list.now) }
{
    for place in list {
        put(*place, places)?;
    }
    Ok(())
}

/// The places of cells: first of those with values, then of the mutexes.
fn places_of(alloc: Global, cells: &Cells) -> Result<Places, NoMemory>
    requires different { AreDifferent (cells.now.values.items ++ cells.now.locks.items) }
    requires room { count_of_cells cells.now ≤ 65536 }
    ensures { IfOk result (λ places. places ≡ cells.now.values.items ++ cells.now.locks.items) }
{
    let mut places = Places::new(alloc);
    put_all(&cells.values, &mut places)?;
    put_all(&cells.locks, &mut places)?;
    Ok(places)
}

/// The locations and behind them the lock places, and how many of them are locations.
#[derive(Drop)]
pub struct AllPlaces {
    pub places: Places,
    pub locations: u32,
}

/// The locations of the program, which are the places of cells with values, and the lock places, which
/// are those of mutexes: each by the place of its root in the text, then by its root, then by its
/// part, members in their order.
///
/// `TooManyPlaces` comes exactly where there are more than 65,536 of both together, unless memory ends first.
pub fn all_places(alloc: Global, types: &TypeTable, roots: &[Root]) -> Result<AllPlaces, LowerFault>
    requires { HaveKnownTypes (length types.now.types) roots.now }
    ensures nodes { IfOk result (λ found. All (IsPlaceIn types.now) found.places) }
    ensures places { IfOk result (λ found. ArePlacesOf types.now roots.now found.places found.locations) }
    ensures few { IfOk result (λ found. length found.places ≤ 65536) }
    ensures many { result ≡ Err TooManyPlaces → HasMorePlacesOf types.now roots.now 65536 }
    ensures points { result ≢ Err TooManyPoints }
{
    let cells = cells_of(alloc, types, roots)?;
    if cells.is_full() {
        return Err(LowerFault::TooManyPlaces);
    }
    let places = places_of(alloc, &cells)?;
    let locations = count_of(cells.values.len())?;
    Ok(AllPlaces { places, locations })
}
