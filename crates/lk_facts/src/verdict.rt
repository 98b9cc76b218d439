//! What the analysis says of a location.

use lk_base::Seq;
use lk_sets::IdSet;

/// Whether the accesses of a location may race.
#[derive(Clone, Copy, PartialEq, Eq)]
pub enum VerdictState {
    /// Some lock is held at each racing access.
    Guarded,
    /// There is no racing access.
    Unshared,
    /// There are racing accesses, and no lock is held at all of them.
    Suspect,
}

/// A racing access of a location, and the locks that are held there.
#[derive(Drop)]
pub struct Racing {
    /// The control point.
    pub access: u32,
    /// The numbers of the locks.
    pub locks: IdSet,
}

/// The verdict of a location.
#[derive(Drop)]
pub struct Verdict {
    pub location: u32,
    pub state: VerdictState,
    /// The locks that guard the location, and none unless it is guarded.
    pub locks: IdSet,
    /// The racing accesses in ascending order, each once.
    pub accesses: Seq<Racing>,
}
