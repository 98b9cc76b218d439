//! The locations of cells.
ghost use Rattle.std.specs.Prelude.{◌≡◌, IfSome};
ghost use Rattle.std.specs.Option.{option_map};
ghost use Rattle.lk_cells.specs.Parts as parts;
ghost use Rattle.lk_meaning.specs.Locations as spec;
ghost use Rattle.lk_types.specs.Nodes as nodes;

use lk_base::CellStep;
use lk_cells::{CellKind, Object, State, object_at};
use lk_facts::{Points, RootKind};
use lk_types::{NodeId, Sel, TypeTable};
use lk_values::{Cell, Path};

/// Whether the cells of a root's objects are locations.
fn has_locations(kind: RootKind) -> bool
    ensures { result ≡ spec.has_locations kind }
{
    match kind {
        RootKind::Global
        | RootKind::Static
        | RootKind::Local
        | RootKind::Heap { .. }
        | RootKind::Argv
        | RootKind::Args => true,
        RootKind::Text | RootKind::Function => false,
    }
}

/// Whether a cell is one of a location.
fn is_value(kind: Option<CellKind>) -> bool
    ensures { result ≡ spec.is_value kind }
{
    match kind {
        Some(CellKind::Value) => true,
        Some(CellKind::Mutex | CellKind::Condition) | None => false,
    }
}

/// The node to which a step leads, its index forgotten.
fn step_along(types: &TypeTable, node: NodeId, step: CellStep) -> Option<NodeId>
    requires { nodes.IsNode types.now node }
    ensures exact { option_map (nodes.node_of types.now) result
        ≡ nodes.step types.now (nodes.node_of types.now node) (parts.sel_of step) }
    ensures node { IfSome result (nodes.IsNode types.now) }
{
    match step {
        CellStep::Field(number) => types.step_node(node, Sel::Field(number)),
        CellStep::Index(_) => types.step_node(node, Sel::Element),
    }
}

/// The node to which a path leads, its indices forgotten.
fn node_along(types: &TypeTable, start: NodeId, path: &[CellStep]) -> Option<NodeId>
    requires { nodes.IsNode types.now start }
    ensures exact { option_map (nodes.node_of types.now) result
        ≡ parts.node_along types.now (nodes.node_of types.now start) path.now }
    ensures node { IfSome result (nodes.IsNode types.now) }
{
    let mut node = start;
    for step in path {
        node = step_along(types, node, *step)?;
    }
    Some(node)
}

/// The node of its root's type to which the path of an object leads, where that is one of a location.
fn node_at(points: &Points, object: &Object, path: &Path) -> Option<NodeId>
    ensures exact { option_map (λ node. (object.now.root, nodes.node_of points.now.types node)) result
        ≡ spec.node_at points.now object.now path.now }
    ensures node { IfSome result (nodes.IsNode points.now.types) }
{
    let types = points.types();
    if !is_value(object.kind_at(types, path)) || object.root >= points.roots() {
        return None;
    }
    let root = points.root(object.root);
    if !has_locations(root.kind) {
        return None;
    }
    let node = node_along(types, types.start_node(root.ty), path.list())?;
    Some(node)
}

/// The number of a cell's location, and nothing exactly where it has none: where it isn't there, is a mutex
/// or a condition variable, or is of a string literal. It takes no memory.
pub fn location(points: &Points, state: &State, cell: &Cell) -> Option<u32>
    ensures { spec.IsLocation points.now state.now cell.now result }
{
    let object = object_at(state, cell.object)?;
    let node = node_at(points, object, &cell.path)?;
    // The node goes on by its parts: the checker makes no plan for it whole.
    let NodeId { base, number } = node;
    let found = points.place_number(object.root, NodeId { base, number });
    found
}
