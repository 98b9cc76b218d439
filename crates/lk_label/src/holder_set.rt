//! Holders with their numbers.
ghost use Rattle.std.specs.Prelude.{◌≡◌, [], IfOk};
ghost use Rattle.lk_facts.specs.Places.{AreDifferent, IsNumberOf, IsPut};

use indexmap::IndexSet;
use lk_base::NoMemory;
use lk_facts::Holder;
use std::alloc::Global;
use std::marker::Model;

/// Holders, each once. A contract sees them as the list of them.
#[derive(Drop)]
pub struct HolderSet {
    set: IndexSet<Holder>,
}

impl Model for HolderSet {
    ghost use Rattle.std.specs.Prelude.{List};
    ghost use Rattle.lk_facts.specs.declared.root.Holder.{Holder};

    ghost Value = { List Holder };

    ghost view = { λ holders. holders.set.keys };
}

impl HolderSet {
    /// No holders.
    fn new(alloc: Global) -> HolderSet
        ensures { result ≡ [] }
    {
        HolderSet {
            set: IndexSet::new(alloc),
        }
    }

    /// The number of a holder, or nothing where it isn't there.
    pub fn find(&self, holder: Holder) -> Option<usize>
        ensures { IsNumberOf self.now holder result }
    {
        self.set.get_index_of(&holder)
    }

    /// The number of a holder: that of the equal one that is there, or of the one put at the end.
    fn put(&mut self, holder: &Holder) -> Result<usize, NoMemory>
        ensures { IfOk result (IsPut self.old self.new holder.now) }
    {
        let holder = *holder;
        let (place, _added) = self.set.insert_full(holder)?;
        Ok(place)
    }

    /// These holders, with their places as their numbers.
    pub fn of(alloc: Global, holders: &[Holder]) -> Result<HolderSet, NoMemory>
        requires { AreDifferent holders.now }
        ensures { IfOk result (λ set. set ≡ holders.now) }
    {
        let mut set = HolderSet::new(alloc);
        for holder in holders {
            set.put(holder)?;
        }
        Ok(set)
    }
}
