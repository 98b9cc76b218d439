//! Want of memory, the one answer that every call which allocates may give.

use std::alloc::{AllocError, AllocFailed};
use std::error::Error;
use std::fmt;

/// No memory was found. No clause says when this comes: a caller passes it on by `?`.
///
/// Beside want of memory it stands for states that are not expected to come, and a caller treats them as want
/// of memory: a failed test of what was made of a source without a fault, or a number that would need more
/// bits than it has. That no such test fails is shown by the cases of `conformance`, and not proved.
#[derive(Clone, Copy, Debug, PartialEq, Eq)]
pub struct NoMemory;

impl fmt::Display for NoMemory {
    fn fmt<W: fmt::Write>(&self, f: &mut fmt::Formatter<W>) -> fmt::Result {
        f.write_str("no memory")
    }
}

impl Error for NoMemory {}

impl From<AllocError> for NoMemory {
    fn from(_error: AllocError) -> NoMemory {
        NoMemory
    }
}

impl<T: Drop> From<AllocFailed<T>> for NoMemory {
    fn from(_error: AllocFailed<T>) -> NoMemory {
        NoMemory
    }
}
