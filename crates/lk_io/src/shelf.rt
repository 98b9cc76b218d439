//! A place that files are read from.
ghost use Rattle.std.specs.Prelude.{◌≡◌, ◌≤◌, ℕ, List, Option, length, IfOk};
ghost use Rattle.std.specs.Option.{ForSome};
ghost use Rattle.lk_io.specs.Shelf.{Held, IsFileName, Gives, ReadCounts, is_failed};

use crate::fault::ShelfFault;

/// A place that files are read from, by name.
pub trait Shelf {
    /// What it holds, where it tells it: for each name the bytes of its file, or nothing.
    ghost held: { Self → Option Held };

    /// How often a read has failed: a number of 64 bits, which stands still at its last value.
    ghost faults: { Self → ℕ };

    /// The name of the last read that failed. There is none where no read has, or
    /// where the shelf does not tell it.
    ghost bad: { Self → Option (List ℕ) };

    /// Reads bytes of the named file, from a place on, into the front of `into`, and answers how many.
    ///
    /// For an `into` with room 0 is the end of the file. A name without a file is a fault.
    fn read(&mut self, name: &str, from: u64, into: &mut [u8]) -> Result<usize, ShelfFault>
        requires { IsFileName name.now }
        ensures held { held self.new ≡ held self.old }
        ensures within { IfOk result (λ n. n ≤ length into.new) }
        ensures gives { ForSome (held self.old) (λ files. IfOk result (Gives (files name.now) from into.new)) }
        ensures counts { ReadCounts name.now (faults self.old) (faults self.new) (bad self.old) (bad self.new)
            (is_failed result) };
}
