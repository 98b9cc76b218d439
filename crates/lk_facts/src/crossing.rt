//! What crosses one site.
ghost use Rattle.std.specs.Prelude.{◌≡◌, ◌↔◌, ℕ, IsTrue};

use crate::edge::Label;
use crate::id_lists::{are_sets_below, is_set_below, place_of};
use lk_base::Seq;
use lk_sets::IdSet;

/// What crosses one site: the labels inside that something outside flows to, and for each of them the labels
/// outside.
#[derive(Drop)]
pub struct Crossing {
    /// The labels inside.
    pub inside: IdSet,
    /// For each label inside, in ascending order, the labels outside that flow to it.
    pub outside: Seq<IdSet>,
}

impl Crossing {
    ghost use Rattle.lk_facts.specs.Origins.{outside_of, IsSetBelow, AreSetsBelow, IsCrossingInRange};

    /// The labels outside that flow to the label `l`, in ascending order.
    pub(crate) fn outside_of(&self, l: Label) -> &[u32]
        ensures value { result.now ≡ outside_of self.now l }
        ensures in_range { (n : ℕ) → AreSetsBelow n self.now.outside → IsSetBelow n result.now }
    {
        match self.outside.get(place_of(self.inside.ids(), l.0)) {
            Some(outside) => outside.ids(),
            None => &[],
        }
    }

    /// Whether both lists are as long, and all lists ascend and have only numbers below that of the labels.
    pub(crate) fn fits(&self, labels: u32) -> bool
        ensures { IsTrue result ↔ IsCrossingInRange labels self.now }
    {
        is_set_below(self.inside.ids(), labels)
            && are_sets_below(self.outside.list(), labels)
            && self.outside.len() == self.inside.ids().len()
    }
}
