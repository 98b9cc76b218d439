//! What arrows lead to.
ghost use Rattle.std.specs.Prelude.{◌≡◌, ◌<◌, ◌↔◌, ℕ, true, Contains, IfOk, OnOk, length};
ghost use Rattle.std.specs.List.{list_any};
ghost use Rattle.lk_facts.specs.Reach.{Plus};
ghost use Rattle.lk_graph.specs.Found.{Finds};
ghost use Rattle.lk_graph.specs.Search.{LeadsInto};
ghost use Rattle.lk_sets.specs.Marks.{is_marked};

use crate::found::Found;
use crate::graph::Graph;
use lk_base::NoMemory;
use std::alloc::Global;

impl Graph {
    /// The numbers to which arrows lead from this one, by one or more and through marked numbers alone.
    pub(crate) fn reached(
        &self,
        alloc: Global,
        start: u32,
        marks: &[bool],
    ) -> Result<Found, NoMemory>
        requires { start < length self.now }
        ensures size { IfOk result (λ found. found.size ≡ length self.now) }
        ensures members { IfOk result (λ found. (a : ℕ) →
            Contains found.list a ↔ Plus (LeadsInto self.now marks.now) start a) }
    {
        let mut found = Found::new(alloc, self.size())?;
        self.put_ends(start, marks, &mut found)?;
        for k in 0..usize::MAX {
            if k >= found.list().len() {
                return Ok(found);
            }
            let a = found.list()[k];
            self.put_ends(a, marks, &mut found)?;
        }
        unreachable!()
    }

    /// Puts the marked numbers to which an arrow leads from this one behind those that were found.
    fn put_ends(&self, a: u32, marks: &[bool], found: &mut Found) -> Result<(), NoMemory>
        requires number { a < length self.now }
        requires size { found.old.size ≡ length self.now }
        ensures { OnOk result (Finds (LeadsInto self.now marks.now a) found.old found.new) }
    {
        for b in self.ends(a) {
            put_marked(*b, marks, found)?;
        }
        Ok(())
    }
}

/// Puts a number behind those that were found, where it is marked.
fn put_marked(a: u32, marks: &[bool], found: &mut Found) -> Result<(), NoMemory>
    requires { a < found.old.size }
    ensures { OnOk result (Finds (λ x. (a ≡ x) × (is_marked marks.now a ≡ true)) found.old found.new) }
{
    if !is_marked(marks, a) {
        return Ok(());
    }
    found.put(a)?;
    Ok(())
}

/// Whether a number is marked.
fn is_marked(marks: &[bool], a: u32) -> bool
    ensures { result ≡ is_marked marks.now a }
{
    marks.get(a as usize).copied().unwrap_or(false)
}

/// Whether one of the numbers is marked.
pub(crate) fn has_marked(marks: &[bool], ids: &[u32]) -> bool
    ensures { result ≡ list_any (λ x. is_marked marks.now x) ids.now }
{
    ids.iter().any(|id| is_marked(marks, *id))
}
