//! Structs of sources, each at one place.
ghost use Rattle.std.specs.Prelude.{◌≡◌, ◌<◌, [], Some, length, slice_get, IfOk};
ghost use Rattle.lk_join.specs.Places.{AreDistinct, IsPutAt};

use indexmap::IndexSet;
use lk_base::NoMemory;
use lk_link::StructOf;
use std::alloc::Global;
use std::marker::Model;

/// Structs of sources, each once, in the order in which they came.
#[derive(Drop)]
pub(crate) struct StructSet {
    structs: IndexSet<StructOf>,
}

impl Model for StructSet {
    ghost use Rattle.std.specs.Prelude.{List};
    ghost use Rattle.lk_link.specs.declared.place.StructOf.{StructOf};

    ghost Value = { List StructOf };

    ghost view = { λ set. set.structs.keys };
}

impl StructSet {
    /// No structs.
    pub(crate) fn new(alloc: Global) -> StructSet
        ensures { result ≡ [] }
    {
        StructSet {
            structs: IndexSet::new(alloc),
        }
    }

    /// How many structs there are.
    pub(crate) fn len(&self) -> usize
        ensures value { result ≡ length self.now }
        ensures distinct { AreDistinct self.now }
    {
        self.structs.len()
    }

    /// The struct at a place.
    pub(crate) fn at(&self, place: usize) -> StructOf
        requires { place < length self.now }
        ensures { slice_get self.now place ≡ Some result }
    {
        *self.structs.get_index(place).unwrap()
    }

    /// The place of a struct, which is put to the others where it isn't among them.
    pub(crate) fn put(&mut self, s: StructOf) -> Result<usize, NoMemory>
        ensures { IfOk result (IsPutAt self.old self.new s) }
    {
        let (place, _) = self.structs.insert_full(s)?;
        Ok(place)
    }
}
