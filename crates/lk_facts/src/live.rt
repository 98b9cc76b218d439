//! Which points are live.
ghost use Rattle.std.specs.Prelude.{◌≡◌, ◌<◌, ◌↔◌, ℕ, [], ◌∷◌, length, true, All, IfOk, OnOk, slice_get, Some};
ghost use Rattle.lk_facts.specs.Live.{IsReached, AreStepsInRange};
ghost use Rattle.lk_facts.specs.Marks.{AreMarked, AreFound, AreFollowed};

use crate::function::Function;
use crate::point::Point;
use lk_base::NoMemory;
use std::alloc::Global;

/// The points that were found to be live so far.
#[derive(Drop)]
struct Marks {
    /// For each point whether it was found.
    live: Vec<bool>,
    /// Those that were found, in the order in which they were.
    found: Vec<u32>,
}

impl Marks {
    /// Marks a point.
    fn put(&mut self, p: u32) -> Result<(), NoMemory>
        requires { p < length self.old.live.items }
        ensures { OnOk result (AreMarked (p ∷ []) self.old self.new) }
    {
        if !self.live[p as usize] {
            self.found.push(p)?;
            self.live[p as usize] = true;
        }
        Ok(())
    }

    /// Marks points.
    fn put_all(&mut self, ps: &[u32]) -> Result<(), NoMemory>
        requires { All (λ p. p < length self.old.live.items) ps.now }
        ensures { OnOk result (AreMarked ps.now self.old self.new) }
    {
        for p in ps {
            self.put(*p)?;
        }
        Ok(())
    }
}

/// The entries of the functions, as the points that were found first.
fn entries(alloc: Global, points: &[Point], functions: &[Function]) -> Result<Marks, NoMemory>
    requires { AreStepsInRange points.now functions.now }
    ensures { IfOk result (AreFound points.now functions.now) }
{
    let mut marks = Marks {
        live: vec![in alloc; false; points.len()]?,
        found: Vec::new(alloc),
    };
    for function in functions {
        marks.put(function.entry)?;
    }
    Ok(marks)
}

/// Marks all points to which successors lead from those that were found, each found point after the other.
fn follow(points: &[Point], functions: &[Function], marks: &mut Marks) -> Result<(), NoMemory>
    requires steps { AreStepsInRange points.now functions.now }
    requires found { AreFound points.now functions.now marks.old }
    ensures found { OnOk result (AreFound points.now functions.now marks.new) }
    ensures all { OnOk result (AreFollowed points.now marks.new (length marks.new.found.items)) }
{
    for k in 0..usize::MAX {
        if k >= marks.found.len() {
            return Ok(());
        }
        let p = marks.found[k];
        marks.put_all(points[p as usize].next.list())?;
    }
    Ok(())
}

/// For each point whether it is live: successors lead to it from the entry of a function. What the points say
/// themselves of being live plays no part, so whoever makes a program asks this first.
pub fn live_points(
    alloc: Global,
    points: &[Point],
    functions: &[Function],
) -> Result<Vec<bool>, NoMemory>
    requires { AreStepsInRange points.now functions.now }
    ensures all { IfOk result (λ live. length live.items ≡ length points.now) }
    ensures exact { IfOk result (λ live. (p : ℕ) →
        (slice_get live.items p ≡ Some true) ↔ IsReached points.now functions.now p) }
{
    let mut marks = entries(alloc, points, functions)?;
    follow(points, functions, &mut marks)?;
    Ok(marks.live)
}
