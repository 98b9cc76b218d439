//! The numbers of the points of a program.
ghost use Rattle.std.specs.Prelude.{◌≡◌, IfOk, Err};
ghost use Rattle.lk_lower_expr.specs.Naming.{AreFew};
ghost use Rattle.lk_lower_unit.specs.PointNumbers.{ArePointNumbers, CountSources, CountsUnit, HasMorePoints};
ghost use Rattle.lk_lower_unit.specs.declared.fault.CountFault.TheVariants.{TooMany};

use crate::bases::{Bases, bases_of};
use crate::counts::counts_of;
use crate::fault::CountFault;
use crate::nodes::Nodes;
use crate::unit::UnitLowering;
use lk_base::{CellStep, MOST_POINTS, NoMemory, Seq};
use lk_lower_expr::SourceNames;
use lk_typed::{Linked, TypedUnit, Whole};
use lk_types::{Base, NodeId, TypeId};
use std::alloc::Global;

/// In the stead of the nodes of types, on which it doesn't depend which steps there are.
#[derive(Drop)]
struct NoNodes;

impl Nodes for NoNodes {
    ghost use Rattle.lk_types.specs.declared.node.Base.TheVariants.{Start};

    ghost node = { λ nodes ty path. record { base = Start 0; number = 0 } };

    fn node(&self, _ty: TypeId, _path: &[CellStep]) -> NodeId {
        NodeId {
            base: Base::Start(TypeId(0)),
            number: 0,
        }
    }
}

/// Names without numbers.
fn no_names(alloc: Global) -> SourceNames
    ensures { AreFew result }
{
    SourceNames {
        bases: Seq::new(Vec::new(alloc)),
        by_node: Seq::new(Vec::new(alloc)),
        types: Seq::new(Vec::new(alloc)),
        pointers: Seq::new(Vec::new(alloc)),
        objects: Seq::new(Vec::new(alloc)),
        functions: Seq::new(Vec::new(alloc)),
        defined: Seq::new(Vec::new(alloc)),
        locals: Seq::new(Vec::new(alloc)),
    }
}

/// How many steps each node of a source has: which steps there are doesn't depend on the numbers,
/// so they are made without any.
fn unit_counts(alloc: Global, unit: &TypedUnit) -> Result<Seq<u32>, NoMemory>
    ensures { IfOk result (CountsUnit unit.now) }
{
    let mut names = no_names(alloc);
    let nodes = NoNodes;
    let lowering = UnitLowering {
        alloc,
        unit,
        nodes: &nodes,
        first: 0,
        none: 0,
    };
    let steps = lowering.steps(&mut names)?;
    counts_of(alloc, &steps)
}

/// The same of all sources.
fn source_counts(alloc: Global, sources: &[Linked]) -> Result<Vec<Seq<u32>>, NoMemory>
    ensures { IfOk result (λ counts. CountSources sources.now counts.items) }
{
    let mut counts = Vec::new(alloc);
    for linked in sources {
        let row = unit_counts(alloc, &linked.unit)?;
        counts.push(row)?;
    }
    Ok(counts)
}

/// Numbers the points of a program: in the order of the sources, of the nodes and of their steps.
///
/// `TooMany` comes exactly where there are more than 65,536 of them, unless memory ends first.
pub fn number_points(alloc: Global, whole: &Whole) -> Result<Bases, CountFault>
    ensures ok { IfOk result (ArePointNumbers whole.now) }
    ensures many { result ≡ Err TooMany → HasMorePoints whole.now 65536 }
{
    let counts = source_counts(alloc, whole.sources.list())?;
    bases_of(alloc, &counts, 0, MOST_POINTS)
}
