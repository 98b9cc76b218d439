//! Rows that are passed on along arrows, each only where it has grown.
ghost use Rattle.std.specs.Prelude.{◌≡◌, ℕ, true, List, ◌↔◌, ◌⊎◌, ⊤, All, Contains, IsTrue, IfOk, OnOk, length};
ghost use Rattle.lk_sets.specs.Rows.{Rows, has};
ghost use Rattle.lk_sets.specs.Closing.{Grows, Going};
ghost use Rattle.lk_sets.specs.Spread.{IsWithin, IsSound, PassesOn, Spread};
ghost use Rattle.lk_sets.specs.Marks.{is_marked, PassesOrWaits, AreMarked};
ghost use Rattle.lk_sets.specs.declared.spread.Arrow.{Arrow};

use crate::bit_rows::BitRows;
use crate::spread::Arrow;
use lk_base::NoMemory;
use std::alloc::Global;

impl BitRows {
    /// Lets all arrows pass rows on until no pair is new, as `spread` does, and answers whether a pair was
    /// new. It takes memory for a mark a row, and passes a row on again only where that has grown.
    pub fn spread_marked(&mut self, alloc: Global, arrows: &[Arrow]) -> Result<bool, NoMemory>
        requires { All (IsWithin self.old.size) arrows.now }
        ensures grows { IfOk result (Grows self.old self.new) }
        ensures pairs { OnOk result ((a b : ℕ) → IsTrue (has self.new a b) ↔ Spread arrows.now self.old a b) }
    {
        let mut marks = vec![in alloc; true; self.size() as usize]?;
        let mut changed = false;
        while self.pass_all_marked(alloc, arrows, &mut marks)? {
            changed = true;
        }
        Ok(changed)
    }

    /// Lets each arrow pass its row on where that is marked or has grown, and answers whether a pair was new.
    /// The marks are then those of the rows that have grown.
    fn pass_all_marked(
        &mut self,
        alloc: Global,
        arrows: &[Arrow],
        marks: &mut Vec<bool>,
    ) -> Result<bool, NoMemory>
        requires within { All (IsWithin self.old.size) arrows.now }
        requires long { length marks.old.items ≡ self.old.size }
        requires waits { All (PassesOrWaits marks.old.items self.old) arrows.now }
        ensures going { IfOk result (λ changed. (first : Rows) →
            Going (IsSound arrows.now first) (λ r. All (PassesOn r) arrows.now) self.old
            self.new changed) }
        ensures long { OnOk result (length marks.new.items ≡ self.old.size) }
        ensures waits { OnOk result (All (PassesOrWaits marks.new.items self.new) arrows.now) }
    {
        let mut grown = vec![in alloc; false; self.size() as usize]?;
        let mut changed = false;
        for arrow in arrows {
            changed |= self.pass_marked(arrow, marks, &mut grown);
        }
        *marks = grown;
        Ok(changed)
    }

    /// Lets an arrow pass its row on where that is marked or has grown, and notes
    /// whether the row that takes it has.
    fn pass_marked(&mut self, arrow: &Arrow, marks: &[bool], grown: &mut Vec<bool>) -> bool
        requires within { IsWithin self.old.size arrow.now }
        requires marks { length marks.now ≡ self.old.size }
        requires grown { length grown.old.items ≡ self.old.size }
        ensures going { (arrows : List Arrow) (first : Rows) → Contains arrows arrow.now →
            Going (IsSound arrows first) (λ _. ⊤) self.old self.new result }
        ensures marks { AreMarked self.old self.new grown.old.items grown.new.items result }
        ensures passes { PassesOrWaits marks.now self.old arrow.now
            ⊎ (is_marked grown.old.items arrow.now.from ≡ true) →
            PassesOrWaits grown.new.items self.new arrow.now }
    {
        let from = arrow.from as usize;
        if !marks[from] && !grown[from] {
            return false;
        }
        if !self.join_row(arrow.from, arrow.into) {
            return false;
        }
        grown[arrow.into as usize] = true;
        true
    }
}
