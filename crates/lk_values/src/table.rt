//! Tables: values by keys.
ghost use Rattle.std.specs.Prelude.{◌≡◌, [], OnOk, OnErr};
ghost use Rattle.std.specs.Map.{lookup};
ghost use Rattle.std.specs.Option.{option_copied};
ghost use Rattle.indexmap.specs.IndexMap.{insert_entry};
ghost use Rattle.lk_values.specs.Values.{is_any_owned};

use crate::path::Path;
use crate::value::Mutex;
use indexmap::IndexMap;
use lk_base::NoMemory;
use std::alloc::Global;
use std::hash::Hash;
use std::marker::Model;

/// Values by keys, each key once. A contract sees it as the list of its entries, the oldest first.
#[derive(Drop)]
pub struct Table<K: Eq + Hash, V> {
    entries: IndexMap<K, V>,
}

impl<K: Eq + Hash, V> Model for Table<K, V> {
    ghost use Rattle.std.specs.Prelude.{List};

    ghost Value = { List (K × V) };

    ghost view = { λ table. table.entries.entries };
}

impl<K: Eq + Hash, V> Table<K, V> {
    /// A table without entries. It takes no memory.
    pub fn new(alloc: Global) -> Table<K, V>
        ensures { result ≡ [] }
    {
        Table {
            entries: IndexMap::new(alloc),
        }
    }

    /// The value at a key, where there is one.
    pub fn get(&self, key: &K) -> Option<&V>
        ensures { option_copied result ≡ lookup (K.eq key.now) self.now }
    {
        self.entries.get(key)
    }
}

impl<K: Eq + Hash + Drop, V: Drop> Table<K, V> {
    /// Puts a value at a key, in the place of the one that it had. Where no memory is
    /// found the table is as before.
    pub fn put(&mut self, key: K, value: V) -> Result<(), NoMemory>
        ensures ok { OnOk result (self.new ≡ insert_entry K.eq self.old key value) }
        ensures err { OnErr result (self.new ≡ self.old) }
    {
        self.entries.insert(key, value)?;
        Ok(())
    }
}

impl Table<Path, Mutex> {
    /// Whether one of the mutexes is owned.
    pub fn is_any_owned(&self) -> bool
        ensures { result ≡ is_any_owned self.now }
    {
        self.entries.values().any(|mutex| mutex.is_owned())
    }
}

/// Puts a value into each of two tables. Where no memory is found both are as before.
pub fn put_both<K: Eq + Hash + Drop, V: Drop, L: Eq + Hash + Drop, W: Drop>(
    first: &mut Table<K, V>,
    first_entry: (K, V),
    second: &mut Table<L, W>,
    second_entry: (L, W),
) -> Result<(), NoMemory>
    ensures first { OnOk result (first.new ≡ insert_entry K.eq first.old first_entry.0 first_entry.1) }
    ensures second { OnOk result (second.new ≡ insert_entry L.eq second.old second_entry.0 second_entry.1) }
    ensures first_kept { OnErr result (first.new ≡ first.old) }
    ensures second_kept { OnErr result (second.new ≡ second.old) }
{
    second.entries.reserve(1)?;
    let (key, value) = first_entry;
    first.put(key, value)?;
    let (key, value) = second_entry;
    second.entries.insert(key, value)?;
    Ok(())
}
