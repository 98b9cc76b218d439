//! A shelf in memory.
ghost use Rattle.std.specs.Prelude.{◌≡◌, ◌≤◌, ◌⊎◌, ◌↔◌, ◌-◌, ◌++◌, None, Some, length, take, drop, min, OnOk, OnErr, IfOk, IfSome, IsNone, IsErrOf};
ghost use Rattle.std.specs.FinMap as map;
ghost use Rattle.lk_io.specs.Calls.{no_calls, with_listed, after_call, with_fault, after_fault, IsNextListed};
ghost use Rattle.lk_io.specs.Shelf.{IsFileName, ReadCounts, is_failed};

use crate::calls::Calls;
use crate::fault::ShelfFault;
use crate::shelf::Shelf;
use crate::short_name::{ShortName, short_name};
use lk_base::NoMemory;
use std::alloc::Global;
use std::collections::BTreeMap;
use std::marker::Model;

/// A shelf in memory, on which listed reads fail.
///
/// A contract sees its files by name, the reads that were made and those that are listed to fail, and the
/// name of the last read that failed.
#[derive(Drop)]
pub struct MemShelf {
    alloc: Global,
    files: BTreeMap<String, Vec<u8>>,
    calls: Calls,
    bad: Option<ShortName>,
}

impl Model for MemShelf {
    ghost use Rattle.lk_io.specs.MemShelf.{ShelfState, shelf_code};

    ghost Value = { ShelfState };

    ghost coded = { shelf_code };

    ghost use Rattle.std.specs.Option.{option_map};
    ghost use Rattle.lk_io.specs.MemShelf.{file_map};

    ghost view = { λ shelf. record {
      files = file_map shelf.files.entries;
      calls = shelf.calls;
      bad = option_map (λ name. name.bytes) shelf.bad;
    } };
}

impl MemShelf {
    /// An empty shelf, on which no read is listed to fail. It takes no memory.
    pub fn new(alloc: Global) -> MemShelf
        ensures { result ≡ record { files = map.empty; calls = no_calls; bad = None } }
    {
        MemShelf {
            alloc,
            files: BTreeMap::new(alloc),
            calls: Calls::new(alloc),
            bad: None,
        }
    }

    /// Puts a file on the shelf, in the place of one of that name. Where no memory is
    /// found the shelf is as before.
    pub fn put(&mut self, name: &str, bytes: &[u8]) -> Result<(), NoMemory>
        ensures ok { OnOk result
            (self.new ≡ record self.old { files = map.insert self.old.files name.now bytes.now }) }
        ensures err { OnErr result (self.new ≡ self.old) }
    {
        let name = String::from_str(self.alloc, name)?;
        let bytes = Vec::from_slice(self.alloc, bytes)?;
        self.files.insert(name, bytes)?;
        Ok(())
    }

    /// Lists a read that is to fail, counted from 1. Where no memory is found the shelf is as before.
    pub fn fail_at(&mut self, call: u64) -> Result<(), NoMemory>
        ensures ok { OnOk result (self.new ≡ record self.old { calls = with_listed self.old.calls call }) }
        ensures err { OnErr result (self.new ≡ self.old) }
    {
        self.calls.list(call)
    }

    /// Counts a failed read of this name.
    fn fail(&mut self, name: &str) -> ShelfFault
        requires { length name.now ≤ 255 }
        ensures fault { result ≡ ShelfFault.Failed }
        ensures counted { self.new ≡ record self.old { calls = with_fault self.old.calls; bad = Some name.now } }
        ensures later { self.old.calls.faults ≤ self.new.calls.faults }
    {
        self.calls.fail();
        self.bad = Some(short_name(name));
        ShelfFault::Failed
    }
}

impl Shelf for MemShelf {
    ghost held = { λ shelf. Some (map.get shelf.files) };

    ghost faults = { λ shelf. shelf.calls.faults };

    ghost bad = { λ shelf. shelf.bad };

    fn read(&mut self, name: &str, from: u64, into: &mut [u8]) -> Result<usize, ShelfFault>
        requires { IsFileName name.now }

        // It fails exactly where the read is listed or there is no such file, and it takes no memory.
        ensures failed { IsErrOf result ShelfFault.Failed
            ↔ (IsNextListed self.old.calls ⊎ IsNone (map.get self.old.files name.now)) }
        ensures no_memory { IsErrOf result ShelfFault.NoMemory → ⊥ }

        // What is read is determined, and so is what is left.
        ensures bytes { IfOk result (λ n. IfSome (map.get self.old.files name.now) (λ file.
            (n ≡ min (length into.old) (length file - from))
            × (into.new ≡ take n (drop from file) ++ drop n into.old))) }
        ensures ok { OnOk result (self.new ≡ record self.old { calls = after_call self.old.calls }) }
        ensures err { OnErr result
            (self.new ≡ record self.old { calls = after_fault self.old.calls; bad = Some name.now }) }
        ensures into_err { OnErr result (into.new ≡ into.old) }

        ensures counts { ReadCounts name.now self.old.calls.faults self.new.calls.faults
            self.old.bad self.new.bad
            (is_failed result) }
    {
        if self.calls.begin() {
            return Err(self.fail(name));
        }
        let Some(file) = self.files.get(name) else {
            return Err(self.fail(name));
        };
        Ok(copy_from(file, from, into))
    }
}

/// Copies the bytes of a file from a place on into the front of `into`, and answers how many.
fn copy_from(file: &[u8], from: u64, into: &mut [u8]) -> usize
    ensures count { result ≡ min (length into.old) (length file.now - from) }
    ensures bytes { into.new ≡ take result (drop from file.now) ++ drop result into.old }
{
    if file.len() as u64 <= from {
        return 0;
    }
    let rest = &file[from as usize..];
    let count = into.len().min(rest.len());
    into[..count].copy_from_slice(&rest[..count]);
    count
}
