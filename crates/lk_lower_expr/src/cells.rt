//! The nodes of the cells of objects.
ghost use Rattle.std.specs.Prelude.{◌≡◌, ◌<◌};
ghost use Rattle.lk_lower_expr.specs.Cells as spec;
ghost use Rattle.lk_types.specs.Table.{type_at};

use lk_base::CellStep;
use lk_types::{Base, CType, NodeId, StructMember, TypeId, TypeTable};

/// A part of an object: its type, and its number in the walk of the object's type.
#[derive(Clone, Copy)]
pub(crate) struct PartOf {
    pub(crate) ty: TypeId,
    pub(crate) number: u32,
}

/// How many nodes a type has; none where the table has no type of that number.
fn nodes(types: &TypeTable, t: TypeId) -> u32
    ensures { result ≡ spec.nodes_here types.now t }
{
    if t.0 < types.count() {
        types.size(t).nodes
    } else {
        0
    }
}

/// The member of a struct among these, of which the first has a number; the struct itself
/// where it has no such member.
fn member(types: &TypeTable, of: PartOf, first: u32, members: &[StructMember], k: u32) -> PartOf
    ensures { result ≡ spec.member_at types.now of first members.now k }
{
    let mut number = first;
    let mut left = k;
    for member in members {
        if left == 0 {
            return PartOf {
                ty: member.ty,
                number,
            };
        }
        number = number.saturating_add(nodes(types, member.ty));
        left -= 1;
    }
    of
}

/// The member of a struct; the part itself where it has no such member.
fn field(types: &TypeTable, of: PartOf, k: u32) -> PartOf
    ensures { result ≡ spec.field_of types.now k of (type_at types.now of.ty) }
{
    if of.ty.0 >= types.count() {
        return of;
    }
    match types.get(of.ty) {
        CType::Struct(s) => member(types, of, of.number.saturating_add(1), types.members(*s), k),
        CType::Void
        | CType::Int(_)
        | CType::ThreadId
        | CType::Mutex
        | CType::Cond
        | CType::Pointer(_)
        | CType::Array(_, _)
        | CType::Function { .. }
        | CType::Opaque(_) => of,
    }
}

/// The elements of an array; the part itself where it is none.
fn element(types: &TypeTable, of: PartOf) -> PartOf
    ensures { result ≡ spec.element_of of (type_at types.now of.ty) }
{
    if of.ty.0 >= types.count() {
        return of;
    }
    match types.get(of.ty) {
        CType::Array(element, _) => PartOf {
            ty: *element,
            number: of.number.saturating_add(1),
        },
        CType::Void
        | CType::Int(_)
        | CType::ThreadId
        | CType::Mutex
        | CType::Cond
        | CType::Pointer(_)
        | CType::Struct(_)
        | CType::Function { .. }
        | CType::Opaque(_) => of,
    }
}

/// The part to which a step leads; the same part where it leads to none.
fn inside(types: &TypeTable, of: PartOf, step: CellStep) -> PartOf
    ensures { result ≡ spec.inside types.now of step }
{
    match step {
        CellStep::Field(k) => field(types, of, k),
        CellStep::Index(_) => element(types, of),
    }
}

/// The node to which the steps to a cell of an object of the type lead, with indices forgotten.
pub fn cell_node(types: &TypeTable, ty: TypeId, path: &[CellStep]) -> NodeId
    ensures { result ≡ spec.cell_node types.now ty path.now }
{
    let mut of = PartOf { ty, number: 0 };
    for step in path {
        of = inside(types, of, *step);
    }
    NodeId {
        base: Base::Start(ty),
        number: of.number,
    }
}
