//! The steps of a program, as arrows between its points.
ghost use Rattle.std.specs.Prelude.{◌≡◌, ◌<◌, ◌↔◌, ◌||◌, ◌&&◌, ◌==◌, ℕ, true, IfOk, OnOk, length};
ghost use Rattle.lk_graph.specs.Graph.{leads};
ghost use Rattle.lk_graph.specs.Steps.{counts, IsStep, steps_at};
ghost use Rattle.lk_sets.specs.Ids.{has_id};

use crate::graph::Graph;
use lk_base::NoMemory;
use lk_facts::Points;
use std::alloc::Global;

/// Which successors of a point control may go on to.
#[derive(Clone, Copy, PartialEq, Eq)]
pub(crate) enum Steps {
    /// Each one.
    All,
    /// Those that are live.
    Live,
}

impl Steps {
    /// Whether control may go on to a point.
    fn counts(self, points: &Points, next: u32) -> bool
        requires { next < length points.now.points }
        ensures { result ≡ counts self points.now next }
    {
        match self {
            Steps::All => true,
            Steps::Live => points.live(next),
        }
    }

    /// Puts an arrow from a point to each successor that counts.
    fn put_at(self, points: &Points, point: u32, graph: &mut Graph) -> Result<(), NoMemory>
        requires point { point < length points.now.points }
        requires size { length graph.old ≡ length points.now.points }
        ensures size { OnOk result (length graph.new ≡ length points.now.points) }
        ensures arrows { OnOk result ((p q : ℕ) → leads graph.new p q
            ≡ (leads graph.old p q || p == point && has_id (steps_at self points.now point) q)) }
    {
        for next in points.next(point) {
            if self.counts(points, *next) {
                graph.put(point, *next)?;
            }
        }
        Ok(())
    }

    /// An arrow for each step.
    pub(crate) fn graph(self, alloc: Global, points: &Points) -> Result<Graph, NoMemory>
        ensures size { IfOk result (λ graph. length graph ≡ length points.now.points) }
        ensures steps { IfOk result (λ graph. (p q : ℕ) →
            (leads graph p q ≡ true) ↔ IsStep self points.now p q) }
    {
        let mut graph = Graph::new(alloc, points.count())?;
        for point in 0..points.count() {
            self.put_at(points, point, &mut graph)?;
        }
        Ok(graph)
    }
}
