//! Pairs of structs.
ghost use Rattle.std.specs.Prelude.{◌≡◌, ◌<◌, ◌^◌, [], Some, true, length, slice_get, OnOk};
ghost use Rattle.lk_link.specs.Pairs.{IsAnswered, IsAmong};

use crate::place::StructPair;
use indexmap::IndexSet;
use lk_base::NoMemory;
use std::alloc::Global;
use std::marker::Model;

/// Pairs of structs, each once, in the order in which they were met.
#[derive(Drop)]
pub(crate) struct Pairs {
    pairs: IndexSet<StructPair>,
}

impl Model for Pairs {
    ghost use Rattle.std.specs.Prelude.{List};
    ghost use Rattle.lk_link.specs.declared.place.StructPair.{StructPair};

    ghost Value = { List StructPair };

    ghost view = { λ pairs. pairs.pairs.keys };
}

impl Pairs {
    /// No pairs.
    pub(crate) fn new(alloc: Global) -> Pairs
        ensures { result ≡ [] }
    {
        Pairs {
            pairs: IndexSet::new(alloc),
        }
    }

    /// How many pairs there are.
    pub(crate) fn len(&self) -> usize
        ensures value { result ≡ length self.now }
        ensures small { result < 2 ^ 63 }
    {
        self.pairs.len()
    }

    /// The pair at a place.
    pub(crate) fn at(&self, place: usize) -> StructPair
        requires { place < length self.now }
        ensures { slice_get self.now place ≡ Some result }
    {
        *self.pairs.get_index(place).unwrap()
    }

    /// Puts a pair, unless it is there.
    pub(crate) fn put(&mut self, pair: StructPair) -> Result<(), NoMemory>
        ensures { OnOk result (IsAnswered (λ p. p ≡ pair) self.old self.new
            (λ pairs. IsAmong pairs pair) true) }
    {
        self.pairs.insert(pair)?;
        Ok(())
    }
}
