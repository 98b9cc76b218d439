//! A place that bytes are written to.
ghost use Rattle.std.specs.Prelude.{◌≡◌, ◌<◌, ◌≤◌, ℕ, List, Option, length, take, IfOk, OnErr};
ghost use Rattle.lk_io.specs.Counts.{Counts};
ghost use Rattle.lk_io.specs.Sink.{Takes};

use crate::fault::Failed;

/// A place that bytes are written to.
pub trait Sink {
    /// All bytes that it has taken, where it tells them.
    ghost gone: { Self → Option (List ℕ) };

    /// How often a write has failed: a number of 64 bits, which stands still at its last value.
    ghost faults: { Self → ℕ };

    /// Writes bytes from the first on, and answers how many: at least one, where there is
    /// one. A failed write takes none.
    fn write(&mut self, bytes: &[u8]) -> Result<usize, Failed>
        ensures within { IfOk result (λ n. n ≤ length bytes.now) }
        ensures some { IfOk result (λ n. 0 < length bytes.now → 0 < n) }
        ensures ok { IfOk result (λ n. Takes (gone self.old) (gone self.new) (take n bytes.now)) }
        ensures err { OnErr result (gone self.new ≡ gone self.old) }
        ensures counts { Counts (faults self.old) (faults self.new) result };
}
