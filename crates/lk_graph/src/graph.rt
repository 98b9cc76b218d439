//! Arrows between numbers.
ghost use Rattle.std.specs.Prelude.{◌≡◌, ◌<◌, ◌==◌, ◌&&◌, ◌||◌, ℕ, true, false, All, IfOk, OnOk, length};
ghost use Rattle.lk_graph.specs.Graph.{ends_of, leads};
ghost use Rattle.lk_sets.specs.Ids.{has_id};

use lk_base::{NoMemory, Seq};
use std::alloc::Global;
use std::marker::Model;

/// Arrows between the numbers below a size. A contract sees for each number the list of
/// those to which its arrows lead.
#[derive(Drop)]
pub struct Graph {
    /// How many numbers there are.
    size: u32,
    /// For each number those to which its arrows lead.
    ends: Vec<Seq<u32>>,
}

impl Model for Graph {
    ghost use Rattle.std.specs.Prelude.{List, ℕ};
    ghost use Rattle.lk_graph.specs.Graph.{IsGraph};

    ghost Value = { List (List ℕ) };

    ghost view = { λ graph. graph.ends.items };

    ghost invariant = { λ graph. IsGraph graph.size graph.ends.items };
}

impl Graph {
    /// The numbers below the size, without arrows.
    pub fn new(alloc: Global, size: u32) -> Result<Graph, NoMemory>
        ensures size { IfOk result (λ graph. length graph ≡ size) }
        ensures none { IfOk result (λ graph. (a b : ℕ) → leads graph a b ≡ false) }
    {
        let mut ends = Vec::new(alloc);
        for _ in 0..size {
            ends.push(Seq::new(Vec::new(alloc)))?;
        }
        Ok(Graph { size, ends })
    }

    /// How many numbers there are.
    pub fn size(&self) -> u32
        ensures value { result ≡ length self.now }
        ensures within { (a b : ℕ) → leads self.now a b ≡ true
            → (a < length self.now) × (b < length self.now) }
    {
        self.size
    }

    /// The numbers to which arrows lead from a number.
    pub fn ends(&self, a: u32) -> &[u32]
        requires { a < length self.now }
        ensures value { result.now ≡ ends_of self.now a }
        ensures in_range { All (λ b. b < length self.now) result.now }
    {
        self.ends[a as usize].list()
    }

    /// Puts an arrow from one number to another.
    pub fn put(&mut self, a: u32, b: u32) -> Result<(), NoMemory>
        requires a { a < length self.old }
        requires b { b < length self.old }
        ensures size { OnOk result (length self.new ≡ length self.old) }
        ensures arrows { OnOk result ((x y : ℕ) →
            leads self.new x y ≡ (leads self.old x y || x == a && y == b)) }
    {
        self.ends[a as usize].push(b)?;
        Ok(())
    }

    /// The same arrows the other way round.
    pub fn turned(&self, alloc: Global) -> Result<Graph, NoMemory>
        ensures size { IfOk result (λ turned. length turned ≡ length self.now) }
        ensures arrows { IfOk result (λ turned. (a b : ℕ) → leads turned a b ≡ leads self.now b a) }
    {
        let mut turned = Graph::new(alloc, self.size)?;
        for a in 0..self.size {
            turned.put_all(self.ends(a), a)?;
        }
        Ok(turned)
    }

    /// Puts an arrow from each of the numbers to this one.
    fn put_all(&mut self, from: &[u32], into: u32) -> Result<(), NoMemory>
        requires from { All (λ a. a < length self.old) from.now }
        requires into { into < length self.old }
        ensures size { OnOk result (length self.new ≡ length self.old) }
        ensures arrows { OnOk result ((x y : ℕ) →
            leads self.new x y ≡ (leads self.old x y || has_id from.now x && y == into)) }
    {
        for a in from {
            self.put(*a, into)?;
        }
        Ok(())
    }
}
