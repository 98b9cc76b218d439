//! Values by the numbers of nodes.
ghost use Rattle.std.specs.Prelude.{◌≡◌, [], nat_eq, OnOk};
ghost use Rattle.std.specs.Map.{lookup};
ghost use Rattle.indexmap.specs.IndexMap.{insert_entry};

use indexmap::IndexMap;
use lk_base::NoMemory;
use std::alloc::Global;
use std::marker::Model;

/// Values by the numbers of nodes of the syntax tree. A contract sees it as the list of
/// its entries, the oldest first.
#[derive(Drop)]
pub struct ByNumber<V> {
    entries: IndexMap<u32, V>,
}

impl<V> Model for ByNumber<V> {
    ghost use Rattle.std.specs.Prelude.{List, ℕ};

    ghost Value = { List (ℕ × V) };

    ghost view = { λ values. values.entries.entries };
}

impl<V> ByNumber<V> {
    /// No value. It takes no memory.
    pub fn new(alloc: Global) -> ByNumber<V>
        ensures { result ≡ [] }
    {
        ByNumber {
            entries: IndexMap::new(alloc),
        }
    }
}

impl<V: Copy> ByNumber<V> {
    /// The value of the node with this number, where there is one.
    pub fn get(&self, number: u32) -> Option<V>
        ensures { result ≡ lookup (nat_eq number) self.now }
    {
        self.entries.get(&number).copied()
    }

    /// Puts the value of the node with this number, in the place of the one that it had.
    pub fn put(&mut self, number: u32, value: &V) -> Result<(), NoMemory>
        ensures { OnOk result (self.new ≡ insert_entry nat_eq self.old number value.now) }
    {
        self.entries.insert(number, *value)?;
        Ok(())
    }
}
