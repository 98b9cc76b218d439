//! The locks that are held.
ghost use Rattle.std.specs.Prelude.{◌≡◌, ◌↔◌, IsTrue, ◌<◌, length};
ghost use Rattle.lk_facts.specs.LockSets.{sets_of, at_of, keep_of, out_of, released_of, AreLockSetsInRange};
ghost use Rattle.lk_facts.specs.Origins.{IsSetBelow};

use crate::id_lists::are_sets_below;
use lk_sets::IdSet;
use std::marker::Model;

/// The lock sets of a program: for each point the locks that are held there, and for each function those that
/// it returns with and may release. Each is a set of labels.
#[derive(Drop)]
pub struct Held {
    labels: u32,
    at: Vec<IdSet>,
    keep: Vec<IdSet>,
    out: Vec<IdSet>,
    released: Vec<IdSet>,
}

impl Model for Held {
    ghost use Rattle.lk_facts.specs.LockSets.{LockSets, sets_of, AreLockSetsInRange};

    ghost Value = { LockSets };

    ghost view = { λ a. sets_of a.labels a.at.items a.keep.items a.out.items a.released.items };

    ghost invariant = { λ a.
        AreLockSetsInRange (sets_of a.labels a.at.items a.keep.items a.out.items a.released.items) };
}

impl Held {
    /// Whether there are as many sets of each kind, and all are sets of numbers below that
    /// of the labels, as `new` asks.
    pub fn fits(
        labels: u32,
        at: &[IdSet],
        keep: &[IdSet],
        out: &[IdSet],
        released: &[IdSet],
    ) -> bool
        ensures { IsTrue result ↔ AreLockSetsInRange (sets_of labels at.now keep.now out.now released.now) }
    {
        at.len() == keep.len()
            && out.len() == released.len()
            && are_sets_below(at, labels)
            && are_sets_below(keep, labels)
            && are_sets_below(out, labels)
            && are_sets_below(released, labels)
    }

    /// These lock sets, over so many labels. It takes no memory.
    pub fn new(
        labels: u32,
        at: Vec<IdSet>,
        keep: Vec<IdSet>,
        out: Vec<IdSet>,
        released: Vec<IdSet>,
    ) -> Held
        requires { AreLockSetsInRange (sets_of labels at.items keep.items out.items released.items) }
        ensures { result ≡ sets_of labels at.items keep.items out.items released.items }
    {
        Held {
            labels,
            at,
            keep,
            out,
            released,
        }
    }

    /// The number of labels. The numbers in the sets are below it.
    pub fn labels(&self) -> u32
        ensures value { result ≡ self.now.labels }
        ensures in_range { AreLockSetsInRange self.now }
    {
        self.labels
    }

    /// The number of points.
    pub fn points(&self) -> usize
        ensures { result ≡ length self.now.at }
    {
        self.at.len()
    }

    /// The number of functions.
    pub fn functions(&self) -> usize
        ensures { result ≡ length self.now.out }
    {
        self.out.len()
    }

    /// The locks that are held at a point.
    pub fn at(&self, p: u32) -> &IdSet
        requires { p < length self.now.at }
        ensures value { result.now ≡ at_of self.now p }
        ensures in_range { IsSetBelow self.now.labels result.now }
    {
        &self.at[p as usize]
    }

    /// The locks that are held at a point and that nothing it runs may release.
    pub fn keep(&self, p: u32) -> &IdSet
        requires { p < length self.now.at }
        ensures value { result.now ≡ keep_of self.now p }
        ensures in_range { IsSetBelow self.now.labels result.now }
    {
        &self.keep[p as usize]
    }

    /// The locks that are held at the exit of a function.
    pub fn out(&self, f: u32) -> &IdSet
        requires { f < length self.now.out }
        ensures value { result.now ≡ out_of self.now f }
        ensures in_range { IsSetBelow self.now.labels result.now }
    {
        &self.out[f as usize]
    }

    /// The locks that a function may release, itself or in what it runs.
    pub fn released(&self, f: u32) -> &IdSet
        requires { f < length self.now.out }
        ensures value { result.now ≡ released_of self.now f }
        ensures in_range { IsSetBelow self.now.labels result.now }
    {
        &self.released[f as usize]
    }
}
