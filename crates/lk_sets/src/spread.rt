//! Rows that are passed on along arrows.
ghost use Rattle.std.specs.Prelude.{◌≡◌, ℕ, ◌↔◌, All, IsTrue};
ghost use Rattle.lk_sets.specs.Rows.{Rows, has};
ghost use Rattle.lk_sets.specs.Closing.{Going};
ghost use Rattle.lk_sets.specs.Spread.{IsWithin, IsSound, PassesOn, Spread};

use crate::bit_rows::BitRows;

/// What passes a row on: each number that stands with `from` is to stand with `into` too.
#[derive(Clone, Copy)]
pub struct Arrow {
    /// The number whose row is passed on.
    pub from: u32,
    /// The number whose row takes it.
    pub into: u32,
}

impl BitRows {
    /// Lets all arrows pass rows on until no pair is new.
    ///
    /// Their order matters for the time alone: an arrow after those that lead to its `from` has its
    /// whole row to pass on in the first round.
    pub fn spread(&mut self, arrows: &[Arrow])
        requires { All (IsWithin self.old.size) arrows.now }
        ensures size { self.new.size ≡ self.old.size }
        ensures pairs { (a b : ℕ) → IsTrue (has self.new a b) ↔ Spread arrows.now self.old a b }
    {
        while self.pass_on(arrows) {}
    }

    /// Lets each arrow pass its row on once, and answers whether a pair was new.
    fn pass_on(&mut self, arrows: &[Arrow]) -> bool
        requires { All (IsWithin self.old.size) arrows.now }
        ensures { (first : Rows) →
            Going (IsSound arrows.now first) (λ r. All (PassesOn r) arrows.now) self.old self.new result }
    {
        let mut changed = false;
        for arrow in arrows {
            changed |= self.join_row(arrow.from, arrow.into);
        }
        changed
    }
}
