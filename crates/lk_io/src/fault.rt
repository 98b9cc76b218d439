//! Why a read or a write did not do what was asked, and how such faults are counted.
ghost use Rattle.std.specs.Prelude.{◌≡◌, ◌≤◌};
ghost use Rattle.lk_io.specs.Counts.{next_count, Rose};

use lk_base::NoMemory;
use std::alloc::AllocError;
use std::error::Error;
use std::fmt;

/// A write failed. The sink's count of faults rose.
#[derive(Clone, Copy, Debug, PartialEq, Eq)]
pub struct Failed;

/// Why a shelf gave no bytes.
#[derive(Clone, Copy, Debug, PartialEq, Eq)]
pub enum ShelfFault {
    /// The read failed, or there is no such file. The shelf's count of faults rose.
    Failed,
    /// No memory was found.
    NoMemory,
}

/// Why a file was not read whole.
#[derive(Clone, Copy, Debug, PartialEq, Eq)]
pub enum ReadFault {
    /// A read failed, or there is no such file. The shelf's count of faults rose.
    Failed,
    /// The file has more bytes than the limit.
    TooLong,
    /// No memory was found.
    NoMemory,
}

/// One fault more: the count after it.
pub(crate) fn raised(count: u64) -> u64
    ensures value { result ≡ next_count count }
    ensures later { count ≤ result }
    ensures rose { Rose count result }
{
    count.saturating_add(1)
}

impl From<ShelfFault> for ReadFault {
    ghost use Rattle.lk_io.specs.Shelf.{whole_fault};
    ghost use Rattle.std.specs.Prelude.{◌≡◌};

    ghost from_gives = { λ fault gives. gives ≡ whole_fault fault };

    fn from(fault: ShelfFault) -> ReadFault {
        match fault {
            ShelfFault::Failed => ReadFault::Failed,
            ShelfFault::NoMemory => ReadFault::NoMemory,
        }
    }
}

impl From<AllocError> for ReadFault {
    ghost use Rattle.std.specs.Prelude.{◌≡◌};
    ghost use Rattle.lk_io.specs.declared.fault.ReadFault.TheVariants.{NoMemory};

    ghost from_gives = { λ _ fault. fault ≡ NoMemory };

    fn from(_error: AllocError) -> ReadFault {
        ReadFault::NoMemory
    }
}

impl fmt::Display for Failed {
    fn fmt<W: fmt::Write>(&self, f: &mut fmt::Formatter<W>) -> fmt::Result {
        f.write_str("cannot write")
    }
}

impl fmt::Display for ShelfFault {
    fn fmt<W: fmt::Write>(&self, f: &mut fmt::Formatter<W>) -> fmt::Result {
        f.write_str(match self {
            ShelfFault::Failed => "cannot read",
            ShelfFault::NoMemory => "no memory",
        })
    }
}

impl fmt::Display for ReadFault {
    fn fmt<W: fmt::Write>(&self, f: &mut fmt::Formatter<W>) -> fmt::Result {
        f.write_str(match self {
            ReadFault::Failed => "cannot read",
            ReadFault::TooLong => "a file is longer than its limit",
            ReadFault::NoMemory => "no memory",
        })
    }
}

impl Error for Failed {}

impl Error for ShelfFault {}

impl Error for ReadFault {}
