//! A relation among the numbers below a size, a bit for each pair.
ghost use Rattle.std.specs.Prelude.{◌≡◌, ℕ, false, ◌<◌, ◌≤◌, ◌==◌, ◌&&◌, ◌||◌, ◌↔◌, not, IfOk, IsTrue, MatchOption};
ghost use Rattle.lk_sets.specs.Rows.{Rows, has, row_of, IsSquare, AddsPair, HasNoneBetween, IsNextInRow};
ghost use Rattle.lk_sets.specs.Words.{width_of, place_of};
ghost use Rattle.lk_sets.specs.Closing.{Grows};

use crate::bits::{first_bit, has_bit, join_words, put_bit};
use lk_base::NoMemory;
use std::alloc::Global;
use std::marker::Model;

/// A relation among the numbers below a size, at most 65,536. A contract sees it as the size and, for
/// each number a below it, the list in ascending order of the numbers b that stand with a: row a.
#[derive(Drop)]
pub struct BitRows {
    size: u32,
    words: Vec<u64>,
}

impl Model for BitRows {
    ghost use Rattle.std.specs.Prelude.{ℕ};
    ghost use Rattle.lk_sets.specs.Rows.{Rows};
    ghost use Rattle.lk_sets.specs.Words.{rows_in, IsRows};

    ghost Value = { Rows };

    ghost view = { λ s. record { size = s.size; rows = rows_in s.size s.words.items } };

    ghost invariant = { λ s. IsRows s.size s.words.items };
}

/// How many words a row takes.
fn width(size: u32) -> usize
    ensures { result ≡ width_of size }
{
    size.div_ceil(64) as usize
}

impl BitRows {
    /// No pair of numbers below the size.
    pub fn new(alloc: Global, size: u32) -> Result<BitRows, NoMemory>
        requires { size ≤ 65536 }
        ensures size { IfOk result (λ rows. rows.size ≡ size) }
        ensures empty { IfOk result (λ rows. (a b : ℕ) → has rows a b ≡ false) }
        ensures square { IfOk result IsSquare }
    {
        let words = vec![in alloc; 0; size as usize * width(size)]?;
        Ok(BitRows { size, words })
    }

    /// How many numbers there are.
    pub fn size(&self) -> u32
        ensures value { result ≡ self.now.size }
        ensures square { IsSquare self.now }
    {
        self.size
    }

    /// The place of the bit for b in row a.
    fn place(&self, a: u32, b: u32) -> usize
        requires a { a < self.now.size }
        requires b { b < self.now.size }
        ensures { result ≡ place_of self.now.size a b }
    {
        64 * (a as usize * width(self.size)) + b as usize
    }

    /// Whether b stands with a.
    pub fn has(&self, a: u32, b: u32) -> bool
        requires a { a < self.now.size }
        requires b { b < self.now.size }
        ensures { result ≡ has self.now a b }
    {
        has_bit(&self.words, self.place(a, b))
    }

    /// Lets b stand with a, and answers whether the pair was new.
    pub fn put(&mut self, a: u32, b: u32) -> bool
        requires a { a < self.old.size }
        requires b { b < self.old.size }
        ensures pairs { (x y : ℕ) → has self.new x y ≡ (has self.old x y || x == a && y == b) }
        ensures new { result ≡ not (has self.old a b) }
        ensures grows { Grows self.old self.new result }
    {
        let place = self.place(a, b);
        put_bit(&mut self.words, place)
    }

    /// Lets each number that stands with `from` stand with `into` too, and answers whether a pair was new.
    pub fn join_row(&mut self, from: u32, into: u32) -> bool
        requires from { from < self.old.size }
        requires into { into < self.old.size }
        ensures pairs { (x y : ℕ) → has self.new x y ≡ (has self.old x y || x == into && has self.old from y) }
        ensures new { IsTrue result ↔ AddsPair self.old from into }
        ensures grows { Grows self.old self.new result }
    {
        let width = width(self.size);
        join_words(
            &mut self.words,
            from as usize * width,
            into as usize * width,
            width,
        )
    }

    /// The first number from `b` on that stands with `a`, or nothing where there is none.
    pub fn next_in_row(&self, a: u32, b: u32) -> Option<u32>
        requires a { a < self.now.size }
        ensures next { MatchOption result (HasNoneBetween self.now a b self.now.size)
            (λ c. IsNextInRow self.now a b c) }
        ensures square { IsSquare self.now }
    {
        if b >= self.size {
            return None;
        }
        let width = width(self.size);
        let row = a as usize * width;
        let bit = first_bit(&self.words, 64 * row + b as usize, row + width)?;
        Some((bit - 64 * row) as u32)
    }

    /// The numbers that stand with `a`, in ascending order.
    pub fn row(&self, a: u32) -> Row<'_>
        requires { a < self.now.size }
        ensures row { result ≡ row_of self.now a }
        ensures square { IsSquare self.now }
    {
        prove!(a < self.size);
        Row {
            rows: self,
            row: a,
            next: 0,
        }
    }
}

/// No two relations of one size have the same pairs, so what is said of the pairs says what the rows are.
pub fn rows_are_their_pairs()
    ensures { (r s : Rows) → IsSquare r → IsSquare s → r.size ≡ s.size →
        ((a b : ℕ) → has r a b ≡ has s a b) → r ≡ s }
{}

/// The numbers of a row that are left, in ascending order. A contract sees it as the list of them.
#[derive(Drop)]
pub struct Row<'a> {
    rows: &'a BitRows,
    row: u32,
    next: u32,
}

impl<'a> Model for Row<'a> {
    ghost use Rattle.std.specs.Prelude.{ℕ, List, ◌<◌};
    ghost use Rattle.lk_sets.specs.Rows.{row_from};

    ghost Value = { List ℕ };

    ghost view = { λ s. row_from s.rows.now s.row s.next };

    ghost invariant = { λ s. s.row < s.rows.now.size };
}

impl<'a> Iterator for Row<'a> {
    type Item = u32;

    ghost use Rattle.std.specs.Iterator.{YieldsFirst, item_count};

    ghost next_gives = { YieldsFirst (λ s. s) };

    ghost remaining = { item_count (λ s. s) };

    fn next(&mut self) -> Option<u32> {
        let next = self.rows.next_in_row(self.row, self.next)?;
        self.next = next + 1;
        Some(next)
    }
}
