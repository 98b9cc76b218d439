//! An order of the points in which their lock sets are found in few rounds.
ghost use Rattle.std.specs.Prelude.{◌≡◌, ◌<◌, length, IfOk, OnOk};
ghost use Rattle.lk_graph.specs.Graph.{AreAllBelow};
ghost use Rattle.lk_held.specs.Acts.{basis_in};
ghost use Rattle.lk_links.specs.Links.{AreLinks};

use crate::acts::Acts;
use lk_base::NoMemory;
use lk_graph::{Graph, all_functions, in_order_of};
use std::alloc::Global;

impl Acts<'_, '_> {
    /// Each point, in an order in which control may come to them, and each function behind those
    /// that its points run, cycles apart. What a function returns with is then known where it is
    /// run. The order serves speed alone.
    pub(crate) fn order(&self, alloc: Global) -> Result<Vec<u32>, NoMemory>
        requires linked { AreLinks (basis_in self.now) self.now.links.now }
        ensures { IfOk result (λ order. AreAllBelow (length self.now.points.now.points) order.items) }
    {
        let calls = self.calls(alloc)?;
        let functions = all_functions(alloc, self.points)?;
        let callees_first = calls.ends_first(alloc, &functions)?;
        in_order_of(alloc, self.points, &callees_first)
    }

    /// An arrow from each function to each that its points run.
    fn calls(&self, alloc: Global) -> Result<Graph, NoMemory>
        requires { AreLinks (basis_in self.now) self.now.links.now }
        ensures { IfOk result (λ calls. length calls ≡ length self.now.points.now.functions) }
    {
        let mut calls = Graph::new(alloc, self.points.functions())?;
        for point in 0..self.points.count() {
            self.put_calls(point, &mut calls)?;
        }
        Ok(calls)
    }

    /// Puts an arrow to each function that a point runs.
    fn put_calls(&self, point: u32, calls: &mut Graph) -> Result<(), NoMemory>
        requires linked { AreLinks (basis_in self.now) self.now.links.now }
        requires point { point < length self.now.points.now.points }
        requires size { length calls.old ≡ length self.now.points.now.functions }
        ensures { OnOk result (length calls.new ≡ length self.now.points.now.functions) }
    {
        for link in self.links.at(point) {
            if !link.starts {
                calls.put(link.above, link.below)?;
            }
        }
        Ok(())
    }
}
