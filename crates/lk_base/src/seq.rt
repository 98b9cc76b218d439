//! A `Vec` that contracts see as a list.
ghost use Rattle.std.specs.Prelude.{◌≡◌, [], ◌∷◌, ◌++◌, ◌<◌, length, OnOk, OnErr, IfErr, MatchOption, slice_get, slice_set, Some};
ghost use Rattle.std.specs.Option.{option_copied};

use crate::memory::NoMemory;
use std::alloc::AllocFailed;
use std::marker::Model;
use std::mem;

/// A `Vec` that a contract sees as the list of its elements, without room or place in memory. So
/// structs and trees that hold one are plain values in contracts, and a type may lead back to itself
/// through one.
#[derive(Debug, Drop)]
pub struct Seq<T> {
    inner: Vec<T>,
}

impl<T> Model for Seq<T> {
    ghost use Rattle.std.specs.Prelude.{List};
    ghost use Rattle.std.specs.Coded.{coded_list};

    ghost Value = { List T };

    ghost coded = { coded_list T.code };

    ghost view = { λ items. items.inner.items };
}

impl<T> Seq<T> {
    ghost use Rattle.std.specs.Borrow.{Array, Lends, sem};
    ghost use Rattle.lk_base.specs.Lending.{written};
    ghost use Rattle.lk_base.specs.contracts.seq.Seq.{the_row};

    /// The elements of the `Vec`. It takes no memory.
    pub fn new(inner: Vec<T>) -> Seq<T>
        ensures { result ≡ inner.items }
    {
        Seq { inner }
    }

    /// The elements, as a slice.
    pub fn list(&self) -> &[T]
        ensures { result.now ≡ self.now }
    {
        self.inner.as_slice()
    }

    /// The elements, as a slice for writing.
    pub fn list_mut(&mut self) -> &mut [T]
        ensures* writes_back { sem 𝓛
            (Lends (the_row T.row) (Array T.row 0) self.entry result (written self.old)) }
        ensures value { result.now ≡ self.old }
    {
        self.inner.as_mut_slice()
    }

    /// The elements, as a `Vec`. It takes no memory.
    pub fn into_vec(self) -> Vec<T>
        ensures { result.items ≡ self }
    {
        let Seq { inner } = self;
        inner
    }

    /// How many elements there are.
    pub fn len(&self) -> usize
        ensures { result ≡ length self.now }
    {
        self.inner.len()
    }

    /// The element at an index, or nothing past the end.
    pub fn get(&self, index: usize) -> Option<&T>
        ensures { option_copied result ≡ slice_get self.now index }
    {
        self.inner.get(index)
    }

    /// Takes the last element away.
    pub fn pop(&mut self) -> Option<T>
        ensures { MatchOption result ((self.old ≡ []) × (self.new ≡ []))
            (λ last. self.old ≡ self.new ++ last ∷ []) }
    {
        self.inner.pop()
    }

    /// Puts an element in the place of the one at an index, which it hands out.
    pub fn replace(&mut self, index: usize, item: T) -> T
        requires { index < length self.old }
        ensures out { slice_get self.old index ≡ Some result }
        ensures put { self.new ≡ slice_set self.old index item }
    {
        mem::replace(&mut self.inner[index], item)
    }

    /// Puts an element at the end. Where no memory is found it hands the element back, and the
    /// elements are as before.
    pub fn push_or_back(&mut self, item: T) -> Result<(), T>
        ensures ok { OnOk result (self.new ≡ self.old ++ item ∷ []) }
        ensures err { OnErr result (self.new ≡ self.old) }
        ensures back { IfErr result (λ back. back ≡ item) }
    {
        self.inner.push(item).map_err(|AllocFailed { value }| value)
    }
}

impl<T: Drop> Seq<T> {
    /// Puts an element at the end. Where no memory is found the elements are as before.
    pub fn push(&mut self, item: T) -> Result<(), NoMemory>
        ensures ok { OnOk result (self.new ≡ self.old ++ item ∷ []) }
        ensures err { OnErr result (self.new ≡ self.old) }
    {
        self.inner.push(item)?;
        Ok(())
    }

    /// Puts an element in the place of the one at an index.
    pub fn set(&mut self, index: usize, item: T)
        requires { index < length self.old }
        ensures { self.new ≡ slice_set self.old index item }
    {
        self.inner[index] = item;
    }
}
