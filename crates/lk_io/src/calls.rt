//! The calls of a shelf or a sink in memory, and those of them that fail.
ghost use Rattle.std.specs.Prelude.{◌≡◌, ◌≤◌, ◌↔◌, IsTrue, OnOk, OnErr};
ghost use Rattle.lk_io.specs.Calls.{no_calls, with_listed, after_call, with_fault, IsNextListed};

use crate::fault::raised;
use lk_base::NoMemory;
use std::alloc::Global;
use std::marker::Model;

/// The calls that were made on a shelf or a sink in memory, and those that are listed to fail.
#[derive(Drop)]
pub(crate) struct Calls {
    listed: Vec<u64>,
    made: u64,
    faults: u64,
}

impl Model for Calls {
    ghost use Rattle.lk_io.specs.Calls.{CallState};

    ghost Value = { CallState };

    ghost view = { λ calls. record { listed = calls.listed.items; made = calls.made; faults = calls.faults } };
}

impl Calls {
    /// No calls.
    pub(crate) fn new(alloc: Global) -> Calls
        ensures { result ≡ no_calls }
    {
        Calls {
            listed: Vec::new(alloc),
            made: 0,
            faults: 0,
        }
    }

    /// Lists a call that is to fail, counted from 1.
    pub(crate) fn list(&mut self, call: u64) -> Result<(), NoMemory>
        ensures ok { OnOk result (self.new ≡ with_listed self.old call) }
        ensures err { OnErr result (self.new ≡ self.old) }
    {
        self.listed.push(call)?;
        Ok(())
    }

    /// Counts a call, and answers whether it is to fail.
    pub(crate) fn begin(&mut self) -> bool
        ensures counted { self.new ≡ after_call self.old }
        ensures listed { IsTrue result ↔ IsNextListed self.old }
    {
        self.made = self.made.saturating_add(1);
        self.listed.contains(&self.made)
    }

    /// Counts a fault.
    pub(crate) fn fail(&mut self)
        ensures counted { self.new ≡ with_fault self.old }
        ensures later { self.old.faults ≤ self.new.faults }
    {
        self.faults = raised(self.faults);
    }
}
