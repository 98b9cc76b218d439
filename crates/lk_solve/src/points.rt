//! The whole analysis of the points of a program.
ghost use Rattle.std.specs.Prelude.{◌≡◌, Err, IfOk, OnOk};
ghost use Rattle.lk_facts.specs.Analysis.{AreVerdictsOf};
ghost use Rattle.lk_facts.specs.Facts.{basis_of, facts_of};
ghost use Rattle.lk_facts.specs.LabelRules.{AreLabels, HasMoreLabels};
ghost use Rattle.lk_graph.specs.Single.{ArePlaceNodes};
ghost use Rattle.lk_solve.specs.Verdicts.{HasFlow, HasVerdicts};
ghost use Rattle.lk_solve.specs.declared.fault.SolveFault.TheVariants.{TooManyLabels};

use crate::fault::SolveFault;
use crate::solve;
use lk_base::NoMemory;
use lk_facts::{Facts, Labels, Origins, Points, Verdict};
use lk_flow::edges;
use lk_label::labels;
use lk_match::levels;
use lk_origin::origins;
use std::alloc::Global;

/// Which objects may flow to which labels of a program.
pub fn flow(alloc: Global, points: &Points, labels: &Labels) -> Result<Origins, NoMemory>
    requires { AreLabels points.now labels.now }
    ensures { IfOk result (HasFlow points.now labels.now) }
{
    let edges = edges(alloc, points, labels)?;
    let levels = levels(alloc, &edges, labels)?;
    let origins = origins(alloc, &edges, &levels, labels)?;
    Ok(origins)
}

/// The verdicts of a program, by its labels and what flows to them. That the three fit
/// one another is asked once more.
fn verdicts_by(
    alloc: Global,
    points: &Points,
    labels: &Labels,
    origins: &Origins,
) -> Result<Vec<Verdict>, NoMemory>
    requires { ArePlaceNodes points.now }
    ensures { IfOk result (λ found.
        AreVerdictsOf (basis_of (facts_of points.now labels.now origins.now)) found.items) }
{
    if !Facts::fits(points, labels, origins) {
        return Err(NoMemory);
    }
    let facts = Facts::new(points, labels, origins);
    let found = solve(alloc, &facts)?;
    Ok(found)
}

/// The verdict of each location of a program, in their order. Each location and lock place is a
/// node of the program's types.
///
/// `TooManyLabels` comes exactly where the program has more than 65,536 labels, unless memory ends first:
/// where verdicts are answered, it has no more. `NoMemory` is its other fault. Targets of labels are in
/// range, as `count` says of them.
pub fn verdicts_of(alloc: Global, points: &Points) -> Result<Vec<Verdict>, SolveFault>
    requires { ArePlaceNodes points.now }
    ensures ok { IfOk result (λ found. HasVerdicts points.now found.items) }
    ensures too_many { result ≡ Err TooManyLabels → HasMoreLabels points.now 65536 }
    ensures few { OnOk result (HasMoreLabels points.now 65536 → ⊥) }
{
    let labels = labels(alloc, points)?;
    labels.count();
    let origins = flow(alloc, points, &labels)?;
    let found = verdicts_by(alloc, points, &labels, &origins)?;
    Ok(found)
}
