//! Numbers in the order in which they were found.
ghost use Rattle.std.specs.Prelude.{◌≡◌, ◌<◌, ◌^◌, [], All, length, IfOk, OnOk};
ghost use Rattle.lk_graph.specs.Found.{IsPutTo};
ghost use Rattle.lk_graph.specs.Order.{AreMarked};
ghost use Rattle.lk_sets.specs.Ids.{has_id};

use lk_base::NoMemory;
use std::alloc::Global;
use std::marker::Model;

/// Numbers below a size, each once, in the order in which they were found. A
/// contract sees the size and the list.
#[derive(Drop)]
pub(crate) struct Found {
    /// For each number whether it was found.
    seen: Vec<bool>,
    /// Those that were found.
    list: Vec<u32>,
}

impl Model for Found {
    ghost use Rattle.std.specs.Prelude.{length};
    ghost use Rattle.lk_graph.specs.Found.{FoundList, found_of};
    ghost use Rattle.lk_graph.specs.Order.{AreMarked};

    ghost Value = { FoundList };

    ghost view = { λ a. found_of (length a.seen.items) a.list.items };

    ghost invariant = { λ a. AreMarked a.seen.items a.list.items };
}

impl Found {
    /// No numbers below the size.
    pub(crate) fn new(alloc: Global, size: u32) -> Result<Found, NoMemory>
        ensures size { IfOk result (λ found. found.size ≡ size) }
        ensures none { IfOk result (λ found. found.list ≡ []) }
    {
        Ok(Found {
            seen: vec![in alloc; false; size as usize]?,
            list: Vec::new(alloc),
        })
    }

    /// Whether a number was found.
    pub(crate) fn has(&self, x: u32) -> bool
        ensures { result ≡ has_id self.now.list x }
    {
        self.seen.get(x as usize).copied().unwrap_or(false)
    }

    /// For each number whether it was found.
    pub(crate) fn marks(&self) -> &[bool]
        ensures size { length result.now ≡ self.now.size }
        ensures value { AreMarked result.now self.now.list }
    {
        self.seen.as_slice()
    }

    /// Those that were found, each once.
    pub(crate) fn list(&self) -> &[u32]
        ensures value { result.now ≡ self.now.list }
        ensures in_range { All (λ x. x < self.now.size) self.now.list }
        ensures small { length self.now.list < 2 ^ 63 }
    {
        self.list.as_slice()
    }

    /// Puts a number behind those that were found, where it isn't among them.
    pub(crate) fn put(&mut self, x: u32) -> Result<(), NoMemory>
        requires { x < self.old.size }
        ensures { OnOk result (IsPutTo self.old self.new x) }
    {
        if self.seen[x as usize] {
            return Ok(());
        }
        self.list.push(x)?;
        self.seen[x as usize] = true;
        Ok(())
    }
}
