//! The order in which a program locks its mutexes.
ghost use Rattle.std.specs.Prelude.{◌≡◌};

use std::marker::Model;

/// Two mutex places of which one may be locked while the other is owned.
#[derive(Clone, Copy)]
pub struct Pair {
    /// The place of the mutex that is owned, counted as labels count it.
    pub held: u32,
    /// The place of the mutex that is locked.
    pub wanted: u32,
}

/// The order in which a program locks its mutexes: pairs of places, the places on cycles, and the rank of
/// each place where none lies on a cycle.
#[derive(Drop)]
pub struct Order {
    pairs: Vec<Pair>,
    /// For each number of a place whether it lies on a cycle.
    cycles: Vec<bool>,
    /// Whether some place lies on a cycle.
    cyclic: bool,
    /// For each number of a place its rank.
    ranks: Vec<u32>,
}

impl Model for Order {
    ghost use Rattle.lk_order.specs.Table.{OrderTable, table_of};

    ghost Value = { OrderTable };

    ghost view = { λ o. table_of o.pairs.items o.cycles.items o.cyclic o.ranks.items };
}

impl Order {
    ghost use Rattle.lk_order.specs.Table.{table_of, on_cycle, rank_of, rank_at};

    /// The order of these pairs, with the places on cycles, whether there is one, and the ranks
    /// of the places. It takes no memory.
    pub(crate) fn new(pairs: Vec<Pair>, cycles: Vec<bool>, cyclic: bool, ranks: Vec<u32>) -> Order
        ensures { result ≡ table_of pairs.items cycles.items cyclic ranks.items }
    {
        Order {
            pairs,
            cycles,
            cyclic,
            ranks,
        }
    }

    /// The pairs, in the order of what is held, then of what is wanted, each once.
    pub fn pairs(&self) -> &[Pair]
        ensures { result.now ≡ self.now.pairs }
    {
        self.pairs.as_slice()
    }

    /// Whether the order leads from a place to itself.
    pub fn on_cycle(&self, q: u32) -> bool
        ensures { result ≡ on_cycle self.now q }
    {
        self.cycles.get(q as usize).copied().unwrap_or(false)
    }

    /// The rank of a place, or nothing where some place lies on a cycle.
    pub fn rank(&self, q: u32) -> Option<u32>
        ensures { result ≡ rank_of self.now q }
    {
        if self.cyclic {
            return None;
        }
        Some(self.rank_at(q))
    }

    /// Whether some place lies on a cycle.
    pub fn is_cyclic(&self) -> bool
        ensures { result ≡ self.now.cyclic }
    {
        self.cyclic
    }

    /// The rank of a place, which counts where no place lies on a cycle.
    pub(crate) fn rank_at(&self, q: u32) -> u32
        ensures { result ≡ rank_at self.now q }
    {
        self.ranks.get(q as usize).copied().unwrap_or(0)
    }
}
