//! The order in which a program locks its mutexes.
ghost use Rattle.std.specs.Prelude.{◌≡◌, IfOk};
ghost use Rattle.lk_facts.specs.Analysis.{IsLinearTest};
ghost use Rattle.lk_facts.specs.InRange.{IsInRange};
ghost use Rattle.lk_facts.specs.LabelRules.{AreLabels};
ghost use Rattle.lk_facts.specs.Lowered.{IsLowered};
ghost use Rattle.lk_graph.specs.Single.{ArePlaceNodes};
ghost use Rattle.lk_report.specs.Names.{CanBeNamed};
ghost use Rattle.lk_sets.specs.Ids.{has_id};
ghost use Rattle.lk_top.specs.Analysis.{ArePointsOf};
ghost use Rattle.lk_top.specs.Answer.{HasMainIn, JudgesPoints, ShowsOrder};
ghost use Rattle.lk_top.specs.Orders.{HasOrder, status_of_order};
ghost use Rattle.lk_top.specs.Outcome.{Orders};
ghost use Rattle.lk_types.specs.Building.{IsTable};

use crate::analysis::refuse_at_main;
use crate::answer::Answer;
use lk_base::{Code, Files, NoMemory, Status};
use lk_circles::order_excludes_circles;
use lk_facts::{Facts, Labels, Points};
use lk_graph::{linear, many};
use lk_label::{LabelFault, labels};
use lk_order::{Order, lock_order, order_text};
use lk_sets::IdSet;
use lk_solve::flow;
use lk_typed::Whole;
use std::alloc::Global;

/// The status of an order: whether some mutex place lies on a cycle.
fn status_of_order(cyclic: bool) -> Status
    ensures { result ≡ status_of_order cyclic }
{
    match cyclic {
        true => Status::Suspects,
        false => Status::Clean,
    }
}

/// The lock places that have one mutex at most.
fn linear_places(alloc: Global, points: &Points) -> Result<IdSet, NoMemory>
    requires { ArePlaceNodes points.now }
    ensures { IfOk result (λ places. IsLinearTest points.now (has_id places)) }
{
    let many = many(alloc, points)?;
    let places = linear(alloc, points, &many)?;
    Ok(places)
}

/// The order of the mutexes of a program with these labels. That they fit what flows to them is asked once
/// more.
fn order_of(alloc: Global, points: &Points, labels: &Labels) -> Result<Order, NoMemory>
    requires places { ArePlaceNodes points.now }
    requires labels { AreLabels points.now labels.now }
    ensures { IfOk result (HasOrder points.now) }
{
    labels.count();
    let origins = flow(alloc, points, labels)?;
    if !Facts::fits(points, labels, &origins) {
        return Err(NoMemory);
    }
    let facts = Facts::new(points, labels, &origins);
    let linear = linear_places(alloc, points)?;
    let order = lock_order(alloc, &facts, &linear)?;
    Ok(order)
}

/// The text of the order of the mutexes of a program with these labels. Where it has no cycle, no threads wait
/// in a circle in any run.
fn ordered(
    alloc: Global,
    files: &Files,
    points: &Points,
    labels: &Labels,
) -> Result<Answer, NoMemory>
    requires named { CanBeNamed files.now points.now }
    requires places { ArePlaceNodes points.now }
    requires in_range { IsInRange points.now }
    requires table { IsTable points.now.types }
    requires lowered { IsLowered points.now }
    requires labels { AreLabels points.now labels.now }
    ensures { IfOk result (ShowsOrder files.now points.now) }
{
    order_excludes_circles();
    let order = order_of(alloc, points, labels)?;
    let text = order_text(alloc, &order, points, files)?;
    let status = status_of_order(order.is_cyclic());
    Ok(Answer::Report { text, status })
}

/// What a program of these points comes to where the order of its mutexes is told: as in a check, it has no
/// more labels than are analysed.
pub(crate) fn order_points(
    alloc: Global,
    files: &Files,
    whole: &Whole,
    points: &Points,
) -> Result<Answer, NoMemory>
    requires main { HasMainIn files.now whole.now }
    requires named { CanBeNamed files.now points.now }
    requires places { ArePlaceNodes points.now }
    requires made { ArePointsOf whole.now points.now }
    ensures { IfOk result (λ shown. JudgesPoints files.now whole.now points.now shown Orders) }
{
    match labels(alloc, points) {
        Ok(labels) => {
            let answer = ordered(alloc, files, points, &labels)?;
            Ok(answer)
        }
        Err(LabelFault::TooMany) => {
            let answer = refuse_at_main(alloc, files, whole, Code::TooManyLabels)?;
            Ok(answer)
        }
        Err(LabelFault::NoMemory) => Err(NoMemory),
    }
}
