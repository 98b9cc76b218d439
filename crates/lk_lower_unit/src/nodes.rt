//! The places of the cells of a body's locals.
ghost use Rattle.std.specs.Prelude.{◌≡◌, ℕ, List};
ghost use Rattle.lk_base.specs.declared.cell.CellStep.{CellStep};
ghost use Rattle.lk_lower_unit.specs.Bodies.{cell_place};
ghost use Rattle.lk_types.specs.declared.node.NodeId.{NodeId as NodeNumber};

use lk_base::CellStep;
use lk_facts::Place;
use lk_lower_expr::SourceNames;
use lk_lower_stmt::Cells;
use lk_types::{NodeId, TypeId};

/// What knows the nodes of the program's types.
pub trait Nodes {
    ghost node: { Self → ℕ → List CellStep → NodeNumber };

    /// The node to which the steps to a cell of an object of the type lead, with indices forgotten.
    fn node(&self, ty: TypeId, path: &[CellStep]) -> NodeId
        ensures { result ≡ node self.now ty path.now };
}

/// The places of the cells of a body's locals.
#[derive(Drop)]
pub(crate) struct LocalCells<'a, 'b, N: Nodes> {
    pub(crate) names: &'a SourceNames,
    pub(crate) nodes: &'b N,
}

impl<N: Nodes> Cells for LocalCells<'_, '_, N> {
    ghost places = { λ cells. cell_place (N.node cells.nodes.now) cells.names.now };

    fn place(&self, local: u32, path: &[CellStep]) -> Place {
        match self.names.locals.list().get(local as usize) {
            Some(is) => Place {
                root: is.number,
                node: self.nodes.node(self.names.type_number(is.ty), path),
            },
            None => Place {
                root: 0,
                node: self.nodes.node(TypeId(0), &[]),
            },
        }
    }
}
